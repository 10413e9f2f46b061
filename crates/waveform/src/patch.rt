//! A function of time beside a former one.

ghost use Rattle.std.specs.Prelude.{◌≡◌, ◌<◌, ◌≤◌, ℕ, suc, IfOk, None, Some, unwrap_or};
ghost use Rattle.std.specs.Option.{ForSome};
ghost use Rattle.waveform.specs.Timelines.{changes_below};
ghost use Rattle.waveform.specs.kept.Timelines.{IsAlwaysSettled, end_of};
ghost use Rattle.waveform.specs.kept.Patches.{IsMended, Keeps};
ghost use Rattle.waveform.specs.declared.times.TheConstants.{TIME_END};

use crate::sample::Sample;
use crate::timeline::Timeline;
use std::alloc::{AllocError, Global};
use std::marker::Model;

/// A function of time, as far as it is known, that differs or may differ from a former one (own). It has entries of its own;
/// where it was left it has the former function's values from then on, of which nothing is stored. The former function's
/// timeline is not kept: each call that may read it takes it. Below, `f` is the new function, `g` the former one, and what
/// `old` keeps of it are its changes below `h`.
#[derive(Drop)]
pub struct Patch<V: Sample> {
    line: Timeline<V>,
    since: Option<u64>,
}

impl<V: Sample> Model for Patch<V> {
    ghost use Rattle.std.specs.Prelude.{◌≤◌};
    ghost use Rattle.std.specs.Option.{ForSome};
    ghost use Rattle.waveform.specs.kept.Patches.{PatchRecord};
    ghost use Rattle.waveform.specs.kept.Timelines.{end_of};

    ghost Value = { PatchRecord V };

    ghost view = { λ a. record { line = a.line; since = a.since } };

    ghost invariant = { λ a. ForSome a.since (λ s. end_of a.line ≤ s) };
}

impl<V: Sample> Patch<V> {
    /// The function that is the former one up to `t`, in time units, and may differ after it. It fails where memory runs out.
    pub fn fork(alloc: Global, old: &Timeline<V>, t: u64) -> Result<Patch<V>, AllocError>
        ensures own { IfOk result (λ patch. patch.since ≡ None) }
        ensures end { IfOk result (λ patch. end_of patch.line ≤ suc t) }
        ensures made { IfOk result (λ patch. (f g : ℕ → V) (h : ℕ) → old.now ≡ changes_below V.same V.drift g h → t < h
            → ((u : ℕ) → u < suc t → f u ≡ g u) → IsMended V.same V.drift g f patch.line patch.since (suc t)) }
    {
        let line = old.fork(alloc, t, old.room_after(t))?;
        Ok(Patch { line, since: None })
    }

    /// The function that is the former one before `t`, in time units, and has this value at `t`. It fails where memory runs
    /// out.
    pub fn open(alloc: Global, old: &Timeline<V>, t: u64, value: V) -> Result<Patch<V>, AllocError>
        requires can { V.can_store t value }
        ensures own { IfOk result (λ patch. patch.since ≡ None) }
        ensures end { IfOk result (λ patch. end_of patch.line ≤ suc t) }
        ensures made { IfOk result (λ patch. (f g : ℕ → V) (h : ℕ) → IsAlwaysSettled V.drift f
            → old.now ≡ changes_below V.same V.drift g h → t ≤ h → ((u : ℕ) → u < t → f u ≡ g u) → value ≡ f t
            → IsMended V.same V.drift g f patch.line patch.since (suc t)) }
    {
        if t == 0 {
            let line = Timeline::open(alloc, value)?;
            return Ok(Patch { line, since: None });
        }
        let mut line = old.fork(alloc, t - 1, old.room_after(t))?;
        line.push(t, value)?;
        Ok(Patch { line, since: None })
    }

    /// The function with this value at `t`, in time units, where all moments before `t` are known. It fails where memory runs
    /// out, and then the patch is gone.
    pub fn put(self, old: &Timeline<V>, t: u64, value: V) -> Result<Patch<V>, AllocError>
        requires can { V.can_store t value }
        requires later { end_of self.line ≤ t }
        ensures own { IfOk result (λ patch. patch.since ≡ None) }
        ensures end { IfOk result (λ patch. end_of patch.line ≤ suc t) }
        ensures made { IfOk result (λ patch. (f g : ℕ → V) (h : ℕ) → IsAlwaysSettled V.drift f → IsAlwaysSettled V.drift g
            → old.now ≡ changes_below V.same V.drift g h → t ≤ h → IsMended V.same V.drift g f self.line self.since t → value ≡ f t
            → IsMended V.same V.drift g f patch.line patch.since (suc t)) }
    {
        let mut line = self.finish(old, t)?;
        line.push(t, value)?;
        Ok(Patch { line, since: None })
    }

    /// The function with this value at `t`, in time units, where all moments before `t` are known; with no patch it is the
    /// former one so far. It fails where memory runs out, and then the patch is gone.
    pub fn put_or_open(
        patch: Option<Patch<V>>,
        alloc: Global,
        old: &Timeline<V>,
        t: u64,
        value: V,
    ) -> Result<Patch<V>, AllocError>
        requires can { V.can_store t value }
        requires later { ForSome patch (λ p. end_of p.line ≤ t) }
        ensures own { IfOk result (λ new. new.since ≡ None) }
        ensures end { IfOk result (λ new. end_of new.line ≤ suc t) }
        ensures made { IfOk result (λ new. (f g : ℕ → V) (h : ℕ) → IsAlwaysSettled V.drift f → IsAlwaysSettled V.drift g
            → old.now ≡ changes_below V.same V.drift g h → t ≤ h → Keeps V.same V.drift g f patch t → value ≡ f t
            → IsMended V.same V.drift g f new.line new.since (suc t)) }
    {
        match patch {
            None => Patch::open(alloc, old, t, value),
            Some(patch) => patch.put(old, t, value),
        }
    }

    /// The value at `m`, in time units, a moment that is known. It can be stored there, where that moment can be.
    pub fn at(&self, old: &Timeline<V>, m: u64) -> V
        ensures value { (f g : ℕ → V) (h n : ℕ) → IsAlwaysSettled V.drift f → IsAlwaysSettled V.drift g
            → old.now ≡ changes_below V.same V.drift g h → m < h → m < n
            → IsMended V.same V.drift g f self.now.line self.now.since n → result ≡ f m }
        ensures can { m < TIME_END → V.can_store m result }
    {
        match self.since {
            Some(s) if s <= m => old.at(m),
            _ => self.line.at(m),
        }
    }

    /// The moment from which on the function has the former one's values; none while it may differ.
    pub fn since(&self) -> Option<u64>
        ensures { result ≡ self.now.since }
    {
        self.since
    }

    /// From `t` on, in time units, the function has the former one's values. One that was left before stays as it is.
    pub fn leave(&mut self, t: u64)
        requires later { end_of self.old.line ≤ t }
        ensures line { self.new.line ≡ self.old.line }
        ensures since { self.new.since ≡ Some (unwrap_or self.old.since t) }
        ensures made { (f g : ℕ → V) → IsMended V.same V.drift g f self.old.line self.old.since t
            → IsMended V.same V.drift g f self.new.line self.new.since t }
    {
        if self.since.is_none() {
            self.since = Some(t);
        }
    }

    /// The whole function below `end`, in time units, where all moments before it are known. It fails where memory runs out,
    /// and then the patch is gone.
    pub fn finish(self, old: &Timeline<V>, end: u64) -> Result<Timeline<V>, AllocError>
        requires later { end_of self.line ≤ end }
        requires within { end ≤ TIME_END }
        ensures end { IfOk result (λ line. end_of line ≤ end) }
        ensures made { IfOk result (λ line. (f g : ℕ → V) (h : ℕ) → IsAlwaysSettled V.drift f → IsAlwaysSettled V.drift g
            → old.now ≡ changes_below V.same V.drift g h → end ≤ h → IsMended V.same V.drift g f self.line self.since end
            → line ≡ changes_below V.same V.drift f end) }
    {
        let Patch { line, since } = self;
        match since {
            Some(s) if s < end => line.follow(s, end - 1, old),
            _ => Ok(line),
        }
    }
}
