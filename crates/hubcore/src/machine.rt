//! The state of editors and viewers, and its steps.

ghost use Rattle.std.specs.Prelude.{◌≡◌, ◌≤◌, ◌<◌, [], Ok, Err, IfOk, IfErr, OnErr, length, replicate};
ghost use Rattle.hubcore.specs.States.{opened, viewer};
ghost use Rattle.hubcore.specs.kept.States.{IsSound};
ghost use Rattle.hubcore.specs.Steps.{MayRefuse, step};
ghost use Rattle.hubcore.specs.declared.event.Event.TheVariants.{Submit, Show, Look, Learn, Release};

use crate::event::Event;
use crate::fault::CoreFault;
use crate::reply::Reply;
use crate::viewer::Viewer;
use bench::CommitFault;
use edits::Edit;
use std::alloc::Global;
use std::marker::Model;

/// The accepted commits of the editors of a design, in order, how many of them are shown, and the viewers, numbered from 0. The
/// type keeps that viewers saw and hold nothing else than what is shown.
#[derive(Drop)]
pub struct Core {
    log: Vec<Vec<Edit>>,
    shown: usize,
    viewers: Vec<Viewer>,
}

impl Model for Core {
    ghost use Rattle.std.specs.Prelude.{◌≤◌, length, map, All};
    ghost use Rattle.hubcore.specs.States.{CoreRecord, state};
    ghost use Rattle.hubcore.specs.kept.States.{IsWithin};

    ghost Value = { CoreRecord };

    ghost view = { λ c. state (map (λ edits. edits.items) c.log.items) c.shown c.viewers.items };

    ghost invariant = { λ c. (c.shown ≤ length c.log.items) × All (IsWithin c.shown) c.viewers.items };
}

impl Core {
    /// So many viewers, before any commit.
    pub fn open(alloc: Global, viewers: u32) -> Result<Core, CoreFault>
        ensures opened { IfOk result (λ core. core ≡ opened viewers) }
        ensures fault { IfErr result (λ fault. fault ≡ CoreFault.OutOfMemory) }
    {
        let viewers = new_viewers(alloc, viewers)?;
        Ok(Core {
            log: Vec::new(alloc),
            shown: 0,
            viewers,
        })
    }

    /// Takes one event. A refused one changes nothing.
    pub fn step(&mut self, event: Event) -> Result<Reply, CoreFault>
        ensures done { IfOk result (λ reply. step self.old event ≡ Ok (self.new, reply)) }
        ensures refused { IfErr result (MayRefuse self.old event) }
        ensures unchanged { OnErr result (self.new ≡ self.old) }
    {
        match event {
            Event::Submit(edits, reply) => self.submit(edits, reply),
            Event::Show => Ok(self.show()),
            Event::Look(number) => self.look(number),
            Event::Learn(number, length) => self.learn(number, length),
            Event::Release(number, length) => self.release(number, length),
        }
    }

    /// The law of every state; nothing runs.
    pub fn lawful(&self)
        ensures { IsSound self.now }
    {
        let _log = &self.log;
    }

    // An accepted commit is logged.
    fn submit(
        &mut self,
        edits: Vec<Edit>,
        reply: Result<u64, CommitFault>,
    ) -> Result<Reply, CoreFault>
        ensures done { IfOk result (λ r. step self.old (Submit edits reply) ≡ Ok (self.new, r)) }
        ensures refused { IfErr result (MayRefuse self.old (Submit edits reply)) }
        ensures unchanged { OnErr result (self.new ≡ self.old) }
    {
        if reply.is_ok() && self.log.push(edits).is_err() {
            return Err(CoreFault::OutOfMemory);
        }
        Ok(Reply::Done)
    }

    // All of the log is shown.
    fn show(&mut self) -> Reply
        ensures { step self.old Show ≡ Ok (self.new, result) }
    {
        self.shown = self.log.len();
        Reply::Done
    }

    // A viewer takes what is shown.
    fn look(&mut self, number: u32) -> Result<Reply, CoreFault>
        ensures done { IfOk result (λ reply. step self.old (Look number) ≡ Ok (self.new, reply)) }
        ensures refused { IfErr result (MayRefuse self.old (Look number)) }
        ensures unchanged { OnErr result (self.new ≡ self.old) }
    {
        let number = self.place_of(number)?;
        let shown = self.shown as u64;
        self.viewers[number].look(shown)?;
        Ok(Reply::At(shown))
    }

    // A viewer is told of a length.
    fn learn(&mut self, number: u32, length: u64) -> Result<Reply, CoreFault>
        ensures done { IfOk result (λ reply. step self.old (Learn number length) ≡ Ok (self.new, reply)) }
        ensures refused { IfErr result (λ fault. step self.old (Learn number length) ≡ Err fault) }
        ensures unchanged { OnErr result (self.new ≡ self.old) }
    {
        let number = self.place_of(number)?;
        if (self.shown as u64) < length {
            return Err(CoreFault::AheadOfLog);
        }
        self.viewers[number].learn(length);
        Ok(Reply::Done)
    }

    // A viewer lets go of a snapshot of a length.
    fn release(&mut self, number: u32, length: u64) -> Result<Reply, CoreFault>
        ensures done { IfOk result (λ reply. step self.old (Release number length) ≡ Ok (self.new, reply)) }
        ensures refused { IfErr result (λ fault. step self.old (Release number length) ≡ Err fault) }
        ensures unchanged { OnErr result (self.new ≡ self.old) }
    {
        let number = self.place_of(number)?;
        self.viewers[number].release(length)?;
        Ok(Reply::Done)
    }

    // The place of the viewer of a number.
    fn place_of(&self, number: u32) -> Result<usize, CoreFault>
        ensures place { IfOk result (λ place. (place ≡ number) × (place < length self.now.viewers)) }
        ensures none { IfErr result (λ fault. (fault ≡ CoreFault.UnknownViewer) × (length self.now.viewers ≤ number)) }
    {
        let place = number as usize;
        if place >= self.viewers.len() {
            return Err(CoreFault::UnknownViewer);
        }
        Ok(place)
    }
}

// So many viewers that saw nothing.
fn new_viewers(alloc: Global, count: u32) -> Result<Vec<Viewer>, CoreFault>
    ensures viewers { IfOk result (λ viewers. viewers.items ≡ replicate count (viewer 0 [])) }
    ensures fault { IfErr result (λ fault. fault ≡ CoreFault.OutOfMemory) }
{
    let mut viewers = Vec::new(alloc);
    for _number in 0..count {
        if viewers.push(Viewer::new(alloc)).is_err() {
            return Err(CoreFault::OutOfMemory);
        }
    }
    Ok(viewers)
}
