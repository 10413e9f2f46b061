//! One gate over all of time.

ghost use Rattle.std.specs.Prelude.{◌≡◌, ◌≤◌, ◌++◌, ◌⊎◌, ℕ, false, suc, None, Some, IfNone, IfOk, IfSome, OnOk, OnErr};
ghost use Rattle.std.specs.Option.{ForSome};
ghost use Rattle.fourstate.specs.declared.limits.TheConstants.{MAX_TIME};
ghost use Rattle.gateline.specs.kept.KnownLines.{IsLineOf};
ghost use Rattle.gateline.specs.kept.Line.{line_trace, line_work_from};
ghost use Rattle.gateline.specs.kept.OldLines.{IsOldLine, line_if, line_seen, old_inputs, wanted_by};
ghost use Rattle.gateline.specs.kept.Starts.{begin_of};
ghost use Rattle.gateline.specs.kept.Waves.{inputs_by};
ghost use Rattle.scratch.specs.Asked.{IsAskedInPart};
ghost use Rattle.waveform.specs.Changes.{wave_changes_below};
ghost use Rattle.waveform.specs.Timelines.{entries_until};
ghost use Rattle.waveform.specs.kept.Currents.{currents};

use crate::known_line::{KnownLine, Line};
use crate::old_line::OldLine;
use crate::walk::{Along, Former, Walk};
use chunked::Shared;
use gatestep::{Driver, Stepper};
use scratch::Cell;
use std::alloc::{AllocError, Global};
use waveform::{TIME_END, Trace, Wave, laws};

/// From where on a gate is followed, and beside what.
#[derive(Clone, Copy)]
pub struct Start<'a, 'b, 'c> {
    /// As far as it was followed before, if it was; else it is followed from moment 0 on.
    pub former: Option<Former<'a>>,
    /// What it did in the run of an old design, if it is followed beside one.
    pub beside: Option<OldLine<'b, 'c>>,
    /// A line that another thread found, which may be that of the gate, if there is one.
    pub known: Option<&'a KnownLine>,
}

/// The first moment, in time units, that is gone through.
pub fn first_moment(former: Option<Former>) -> u64
    requires { ForSome former (λ former. former.done ≤ MAX_TIME) }
    ensures { result ≡ begin_of former.entry }
{
    match former {
        None => 0,
        Some(former) => former.done + 1,
    }
}

/// The line that another thread found, if there is one and it is that of the gate along these waves.
fn known_of<'a>(
    cell: &Cell,
    along: Along,
    start: Start<'a, '_, '_>,
    last: u64,
) -> Option<&'a KnownLine>
    requires within { last ≤ MAX_TIME }
    requires order { ForSome start.former (λ former. former.done ≤ last) }
    ensures line { IfSome result (λ known. IsLineOf known.now cell.now along.entry.waves.now (begin_of start.entry.former) last) }
    ensures alone { IfSome result (λ known. start.entry.beside ≡ None) }
{
    let known = start.known?;
    if start.beside.is_some() {
        return None;
    }
    if known.is_of(cell, along.waves, first_moment(start.former), last) {
        return Some(known);
    }
    None
}

/// The line of a gate up to and with the moment `last`, in time units, where its inputs have what these waves say: one that another
/// thread found along the same waves is taken, else the gate is followed. It fails where memory runs out; then what was asked is a
/// part of what is asked of the gate.
pub fn follow_line<S: Stepper>(
    alloc: Global,
    cell: &Cell,
    along: Along,
    start: Start,
    last: u64,
    stepper: &mut S,
) -> Result<Line, AllocError>
    requires none_lost { S.losses stepper.old ≡ 0 }
    requires within { last ≤ MAX_TIME }
    requires order { ForSome start.former (λ former. former.done ≤ last) }
    requires trace { ForSome start.former (λ former. former.trace.now ≡ line_trace S.answer cell.now.kind cell.now.delays (inputs_by along.waves.now cell.now.inputs) (suc former.done)) }
    requires beside { ForSome start.beside (λ old. IsOldLine S.answer cell.now last (line_seen old)) }
    ensures trace { IfOk result (λ line. line.trace ≡ line_trace S.answer cell.now.kind cell.now.delays (inputs_by along.entry.waves.now cell.now.inputs) (suc last)) }
    ensures wave { IfOk result (λ line. ForSome line.wave (λ wave. wave ≡ wave_changes_below (currents line.trace) (suc last))) }
    ensures asked { OnOk result (S.asked stepper.new ≡ S.asked stepper.old
        ++ line_work_from S.answer cell.now.kind cell.now.delays (inputs_by along.entry.waves.now cell.now.inputs) (wanted_by (line_if start.entry.beside) cell.now.inputs) (begin_of start.entry.former) (suc last)) }
    ensures part { OnErr result (IsAskedInPart (S.asked stepper.old) (S.asked stepper.new)
        (line_work_from S.answer cell.now.kind cell.now.delays (inputs_by along.entry.waves.now cell.now.inputs) (wanted_by (line_if start.entry.beside) cell.now.inputs) (begin_of start.entry.former) (suc last))) }
    ensures lost { S.losses stepper.new ≡ S.losses stepper.old }
{
    if let Some(known) = known_of(cell, along, start, last) {
        return known.take(alloc, stepper);
    }
    let trace = follow_anew(alloc, cell, along, start, last, stepper)?;
    let trace = Shared::new(alloc, trace)?;
    Ok(Line { trace, wave: None })
}

/// The trace of a gate up to and with the moment `last`, in time units, where its inputs have what these waves say. Beside an old
/// run it is the old trace up to where an input has another value for the first time, and from where all have their old values and
/// the gate its old state again; there nothing is asked. It fails where memory runs out.
fn follow_anew<S: Stepper>(
    alloc: Global,
    cell: &Cell,
    along: Along,
    start: Start,
    last: u64,
    stepper: &mut S,
) -> Result<Trace, AllocError>
    requires none_lost { S.losses stepper.old ≡ 0 }
    requires within { last ≤ MAX_TIME }
    requires order { ForSome start.former (λ former. former.done ≤ last) }
    requires trace { ForSome start.former (λ former. former.trace.now ≡ line_trace S.answer cell.now.kind cell.now.delays (inputs_by along.waves.now cell.now.inputs) (suc former.done)) }
    requires beside { ForSome start.beside (λ old. IsOldLine S.answer cell.now last (line_seen old)) }
    ensures trace { IfOk result (λ trace. trace ≡ line_trace S.answer cell.now.kind cell.now.delays (inputs_by along.entry.waves.now cell.now.inputs) (suc last)) }
    ensures asked { OnOk result (S.asked stepper.new ≡ S.asked stepper.old
        ++ line_work_from S.answer cell.now.kind cell.now.delays (inputs_by along.entry.waves.now cell.now.inputs) (wanted_by (line_if start.entry.beside) cell.now.inputs) (begin_of start.entry.former) (suc last)) }
    ensures part { OnErr result ((n : ℕ) × (n ≤ suc last) × (S.asked stepper.new ≡ S.asked stepper.old
        ++ line_work_from S.answer cell.now.kind cell.now.delays (inputs_by along.entry.waves.now cell.now.inputs) (wanted_by (line_if start.entry.beside) cell.now.inputs) (begin_of start.entry.former) n)) }
    ensures lost { S.losses stepper.new ≡ S.losses stepper.old }
{
    laws::same_changes::<Driver>();
    laws::cut_of_changes::<Driver>();
    let Some(old) = start.beside else {
        return walk_line(alloc, cell, along, start, last, stepper);
    };
    match old.parting(cell, along.waves) {
        Some(moment) if moment <= last => {
            let start = Start {
                former: begin_later(start.former, old.trace, moment),
                beside: start.beside,
                known: None,
            };
            walk_line(alloc, cell, along, start, last, stepper)
        }
        _ => copy_line::<S>(alloc, cell, along, old, last),
    }
}

/// As far as a gate was followed before, or up to the moment before `moment`, in time units, by this trace of an old run, which is
/// that of the gate up to there, whichever is later.
fn begin_later<'a>(former: Option<Former<'a>>, old: &'a Trace, moment: u64) -> Option<Former<'a>>
    ensures none { IfNone result (former.entry ≡ None) }
    ensures later { ForSome result (λ later. (former.entry ≡ Some later) ⊎ (begin_of former.entry ≤ moment × (suc later.done ≡ moment) × (later.trace.now ≡ old.now))) }
{
    if moment == 0 {
        return former;
    }
    let done = moment - 1;
    if let Some(known) = former {
        if done <= known.done {
            return Some(known);
        }
    }
    Some(Former { trace: old, done })
}

/// The trace of a gate up to and with the moment `last`, in time units, whose inputs have the same values up to there as in the old
/// run.
fn copy_line<S: Stepper>(
    alloc: Global,
    cell: &Cell,
    along: Along,
    old: OldLine,
    last: u64,
) -> Result<Trace, AllocError>
    requires beside { IsOldLine S.answer cell.now last (line_seen old) }
    requires there { old.is_other ≡ false }
    requires inputs { (t : ℕ) → t ≤ last → old_inputs (line_seen old) cell.now.inputs t ≡ inputs_by along.waves.now cell.now.inputs t }
    ensures { IfOk result (λ trace. trace ≡ line_trace S.answer cell.now.kind cell.now.delays (inputs_by along.entry.waves.now cell.now.inputs) (suc last)) }
{
    let _cell = cell;
    let _along = along;
    laws::same_changes::<Driver>();
    laws::cut_of_changes::<Driver>();
    old.trace.fork(alloc, last, 0)
}

/// The trace of a gate up to and with the moment `last`, in time units, found by going through the moments at which it is stirred.
fn walk_line<S: Stepper>(
    alloc: Global,
    cell: &Cell,
    along: Along,
    start: Start,
    last: u64,
    stepper: &mut S,
) -> Result<Trace, AllocError>
    requires none_lost { S.losses stepper.old ≡ 0 }
    requires within { last ≤ MAX_TIME }
    requires order { ForSome start.former (λ former. former.done ≤ last) }
    requires trace { ForSome start.former (λ former. entries_until former.trace.now former.done ≡ line_trace S.answer cell.now.kind cell.now.delays (inputs_by along.waves.now cell.now.inputs) (suc former.done)) }
    requires beside { ForSome start.beside (λ old. IsOldLine S.answer cell.now last (line_seen old)) }
    ensures trace { IfOk result (λ trace. trace ≡ line_trace S.answer cell.now.kind cell.now.delays (inputs_by along.entry.waves.now cell.now.inputs) (suc last)) }
    ensures asked { OnOk result (S.asked stepper.new ≡ S.asked stepper.old
        ++ line_work_from S.answer cell.now.kind cell.now.delays (inputs_by along.entry.waves.now cell.now.inputs) (wanted_by (line_if start.entry.beside) cell.now.inputs) (begin_of start.entry.former) (suc last)) }
    ensures part { OnErr result ((n : ℕ) × (n ≤ suc last) × (S.asked stepper.new ≡ S.asked stepper.old
        ++ line_work_from S.answer cell.now.kind cell.now.delays (inputs_by along.entry.waves.now cell.now.inputs) (wanted_by (line_if start.entry.beside) cell.now.inputs) (begin_of start.entry.former) n)) }
    ensures lost { S.losses stepper.new ≡ S.losses stepper.old }
{
    let meeting = meeting_of(start.beside, cell, along.waves);
    match start.former {
        None => {
            let walk = Walk::open(alloc, cell, along, start.beside, stepper)?;
            walk.go_on(cell, along.waves, stepper, meeting, 0, last)
        }
        Some(former) => {
            let walk = Walk::resume::<S>(alloc, cell, along, start.beside, former)?;
            walk.go_on(cell, along.waves, stepper, meeting, former.done, last)
        }
    }
}

/// A moment, in time units, from which on the inputs of a gate that is followed beside an old run have the values that they had
/// there, up to the greatest moment; a later one than that where none is found.
fn meeting_of(beside: Option<OldLine>, cell: &Cell, waves: &[Shared<Wave>]) -> u64
    ensures { ForSome beside.entry (λ old. (t : ℕ) → result ≤ t → t ≤ MAX_TIME → old_inputs (line_seen old) cell.now.inputs t ≡ inputs_by waves.now cell.now.inputs t) }
{
    let Some(old) = beside else {
        return TIME_END;
    };
    match old.meeting(cell, waves) {
        Some(moment) => moment,
        None => TIME_END,
    }
}
