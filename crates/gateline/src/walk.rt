//! A gate that is followed: what stands after a moment, and how it goes on.

ghost use Rattle.std.specs.Prelude.{◌≡◌, ◌+◌, ◌-◌, ◌<◌, ◌≤◌, ◌||◌, ◌++◌, ℕ, Bool, false, suc, not, min, All, IfOk, IfSome, OnOk, OnErr};
ghost use Rattle.std.specs.Option.{ForSome};
ghost use Rattle.fourstate.specs.declared.limits.TheConstants.{MAX_TIME};
ghost use Rattle.gateline.specs.kept.Line.{line_trace, line_work_from, work_at};
ghost use Rattle.gateline.specs.kept.Met.{HasMet};
ghost use Rattle.gateline.specs.kept.OldLines.{IsFollowedAt, IsOldLine, line_if, line_seen, old_inputs, wanted_by};
ghost use Rattle.gateline.specs.kept.Readers.{next_among};
ghost use Rattle.gateline.specs.kept.Walks.{IsAt};
ghost use Rattle.gateline.specs.kept.Waves.{inputs_by};
ghost use Rattle.scratch.specs.Work.{is_due, same_values};
ghost use Rattle.gatestep.specs.Step.{Evaluation, State, due};
ghost use Rattle.waveform.specs.Timelines.{entries_until};
ghost use Rattle.waveform.specs.kept.Changes.{state_at, trace_below};
ghost use Rattle.waveform.specs.kept.Timelines.{IsAlwaysSettled};

use crate::inputs_table::InputsTable;
use crate::old_line::{Near, OldLine, met, next_state};
use crate::readers::{Readers, open_readers, read, read_on};
use chunked::Shared;
use fourstate::Inputs;
use gatestep::{Driver, Stepper};
use scratch::Cell;
use std::alloc::{AllocError, Global};
use waveform::{Trace, Wave, laws};

/// For how many entries more there is room in a trace that goes on.
const ROOM: usize = 8;

/// What a gate is followed along.
#[derive(Clone, Copy)]
pub struct Along<'a> {
    /// The waves of the nets, by their places.
    pub waves: &'a [Shared<Wave>],
    /// The values of a few inputs, all that there are.
    pub table: &'a InputsTable,
}

/// A gate as far as it was followed before.
#[derive(Clone, Copy)]
pub struct Former<'a> {
    /// A trace that is the gate's up to and with the moment `done`.
    pub trace: &'a Trace,
    /// The last moment of which the trace is taken, in time units.
    pub done: u64,
}

/// What each moment asks of the one before it: it is small and apart from all else, so that it can lie in registers.
#[derive(Clone, Copy)]
pub struct Situation {
    /// The state of the gate's driver.
    pub state: Driver,
    /// The values of its inputs.
    pub inputs: Inputs,
    /// The moment at which an input changes next, in time units; `TIME_END` where none does.
    pub next: u64,
}

/// What a gate is followed with.
#[derive(Drop)]
pub struct Course<'a, 'b, 'c> {
    /// Its trace so far.
    pub trace: Trace,
    /// The readers of its inputs.
    pub readers: Readers<'a>,
    /// The values of a few inputs, all that there are.
    pub table: &'a InputsTable,
    /// What it did in an old run, if it is followed beside one.
    pub beside: Option<OldLine<'b, 'c>>,
    /// Where that was looked up last.
    pub near: Near,
}

/// What stands of a gate after a moment.
#[derive(Drop)]
pub struct Walk<'a, 'b, 'c> {
    /// What the next moment asks of it.
    pub situation: Situation,
    /// What it is followed with.
    pub course: Course<'a, 'b, 'c>,
}

/// Whether the pending event is due at the moment `t`, in time units.
#[inline(always)]
fn is_due(state: Driver, t: u64) -> bool
    ensures { result ≡ is_due state t }
{
    match state.pending() {
        Some((_, time)) => time <= t,
        None => false,
    }
}

/// Whether a gate is stirred at a moment `t` after 0, in time units: its inputs have other values than before, or its event is
/// due.
#[inline(always)]
fn is_stirred(inputs: Inputs, before: Inputs, state: Driver, t: u64) -> bool
    ensures { result ≡ (not (same_values inputs before) || is_due state t) }
{
    !inputs.is_same(before) || is_due(state, t)
}

/// The first moment at which the pending event is due or an input changes, where `next` is the moment of the first change; all in
/// time units.
#[inline(always)]
fn first_event(state: Driver, next: u64) -> u64
    ensures within { result ≤ next }
    ensures early { ForSome state.pending (λ event. result ≤ event.1) }
    ensures later { (m : ℕ) → m < next → ForSome state.pending (λ event. m < event.1) → m < result }
{
    match state.pending() {
        Some((_, time)) => time.min(next),
        None => next,
    }
}

impl<'a, 'b, 'c> Course<'a, 'b, 'c> {
    /// The first moment behind `done`, up to which all is done, at which something happens to the gate; if it lies behind `last`,
    /// nothing happens up to there. All are in time units.
    #[inline(always)]
    fn next_moment<S: Stepper>(
        &self,
        situation: Situation,
        cell: &Cell,
        waves: &[Shared<Wave>],
        done: u64,
        last: u64,
    ) -> u64
        requires at { IsAt S.answer cell.now waves.now situation self.now done }
        requires order { done ≤ last }
        requires within { last ≤ MAX_TIME }
        ensures later { done < result }
        ensures at { IsAt S.answer cell.now waves.now situation self.now (min last (result - 1)) }
        ensures next { min last (result - 1) < next_among self.now.readers.items }
        ensures idle { (wanted : Evaluation → ℕ → Bool) (n : ℕ) → n ≤ suc done →
            line_work_from S.answer cell.now.kind cell.now.delays (inputs_by waves.now cell.now.inputs) wanted n (suc (min last (result - 1)))
            ≡ line_work_from S.answer cell.now.kind cell.now.delays (inputs_by waves.now cell.now.inputs) wanted n (suc done) }
    {
        let _inputs = cell.inputs();
        fourstate::laws::delays_in_range(&cell.delays());
        laws::no_change_by_drift::<Driver>();
        let _waves = waves;
        let _done = done;
        let _last = last;
        first_event(situation.state, situation.next)
    }

    /// Goes through the moment after `done`, in time units: the inputs are read there, and where the gate is stirred its next state
    /// is found. It fails where memory runs out, and then the trace is not known.
    #[inline(always)]
    fn pass<S: Stepper>(
        &mut self,
        situation: &mut Situation,
        cell: &Cell,
        waves: &[Shared<Wave>],
        stepper: &mut S,
        done: u64,
    ) -> Result<(), AllocError>
        requires none_lost { S.losses stepper.old ≡ 0 }
        requires at { IsAt S.answer cell.now waves.now situation.old self.old done }
        requires followed { ForSome self.old.beside (λ old. IsFollowedAt S.answer cell.now (line_seen old) (suc done)) }
        requires next { done < next_among self.old.readers.items }
        requires within { done < MAX_TIME }
        ensures at { OnOk result (IsAt S.answer cell.now waves.now situation.new self.new (suc done)) }
        ensures beside { self.new.beside ≡ self.old.beside }
        ensures asked { S.asked stepper.new ≡ S.asked stepper.old
            ++ work_at S.answer cell.now.kind cell.now.delays (inputs_by waves.now cell.now.inputs) (wanted_by (line_if self.old.beside) cell.now.inputs) (suc done) }
        ensures lost { S.losses stepper.new ≡ S.losses stepper.old }
    {
        let _inputs = cell.inputs();
        fourstate::laws::delays_in_range(&cell.delays());
        laws::no_change_by_drift::<Driver>();
        laws::push_to_changes::<Driver>();
        laws::changes_lie_before::<Driver>();
        laws::reached_by_changes::<Driver>();
        let _waves = waves;
        let t = done + 1;
        let before = situation.inputs;
        let reading = read_on(&mut self.readers, t, self.table, before, situation.next);
        situation.next = reading.next;
        let inputs = reading.inputs;
        situation.inputs = inputs;
        let former = situation.state;
        if !is_stirred(inputs, before, former, t) {
            return Ok(());
        }
        situation.state = next_state(
            &self.beside,
            &mut self.near,
            cell,
            former,
            inputs,
            t,
            stepper,
        );
        self.trace.push_known(t, former.due(t), situation.state)?;
        Ok(())
    }

    /// The trace of the old run, where the gate had this state there after the moment `t`, and `meeting` is no later than the moment
    /// after it. Only where lines are looked up next changes.
    #[inline(always)]
    fn met(&mut self, state: Driver, meeting: u64, t: u64) -> Option<&'c Trace>
        requires { t ≤ MAX_TIME }
        ensures met { IfSome result (λ trace. HasMet self.old.beside t state trace.now) }
        ensures late { IfSome result (λ trace. meeting ≤ suc t) }
        ensures same { self.new ≡ record self.old { near = self.new.near } }
    {
        met(&self.beside, &mut self.near, meeting, state, t)
    }
}

impl<'a, 'b, 'c> Walk<'a, 'b, 'c> {
    /// What stands after moment 0, at which every gate is stirred. It fails where memory runs out.
    pub fn open<S: Stepper>(
        alloc: Global,
        cell: &Cell,
        along: Along<'a>,
        beside: Option<OldLine<'b, 'c>>,
        stepper: &mut S,
    ) -> Result<Walk<'a, 'b, 'c>, AllocError>
        requires none_lost { S.losses stepper.old ≡ 0 }
        requires followed { ForSome beside (λ old. IsFollowedAt S.answer cell.now (line_seen old) 0) }
        ensures at { IfOk result (λ walk. IsAt S.answer cell.now along.entry.waves.now walk.situation walk.course 0) }
        ensures beside { IfOk result (λ walk. walk.course.beside ≡ beside.entry) }
        ensures asked { OnOk result (S.asked stepper.new ≡ S.asked stepper.old
            ++ work_at S.answer cell.now.kind cell.now.delays (inputs_by along.entry.waves.now cell.now.inputs) (wanted_by (line_if beside.entry) cell.now.inputs) 0) }
        ensures part { OnErr result ((n : ℕ) × (n ≤ 1) × (S.asked stepper.new ≡ S.asked stepper.old
            ++ line_work_from S.answer cell.now.kind cell.now.delays (inputs_by along.entry.waves.now cell.now.inputs) (wanted_by (line_if beside.entry) cell.now.inputs) 0 n)) }
        ensures lost { S.losses stepper.new ≡ S.losses stepper.old }
    {
        let places = cell.inputs();
        fourstate::laws::delays_in_range(&cell.delays());
        fourstate::laws::limits();
        laws::push_to_changes::<Driver>();
        let mut near = Near::new(alloc, &beside, places.len())?;
        let mut readers = open_readers(alloc, cell, along.waves, 0)?;
        let reading = read(readers.as_mut_slice(), 0, along.table);
        let inputs = reading.inputs;
        let state = next_state(
            &beside,
            &mut near,
            cell,
            Driver::start(),
            inputs,
            0,
            stepper,
        );
        let trace = Trace::open(alloc, state)?;
        Ok(Walk {
            situation: Situation {
                state,
                inputs,
                next: reading.next,
            },
            course: Course {
                trace,
                readers,
                table: along.table,
                beside,
                near,
            },
        })
    }

    /// What stands after the moment up to which the gate was followed before. It fails where memory runs out.
    pub fn resume<S: Stepper>(
        alloc: Global,
        cell: &Cell,
        along: Along<'a>,
        beside: Option<OldLine<'b, 'c>>,
        former: Former,
    ) -> Result<Walk<'a, 'b, 'c>, AllocError>
        requires within { former.done ≤ MAX_TIME }
        requires trace { entries_until former.trace.now former.done ≡ line_trace S.answer cell.now.kind cell.now.delays (inputs_by along.waves.now cell.now.inputs) (suc former.done) }
        ensures at { IfOk result (λ walk. IsAt S.answer cell.now along.entry.waves.now walk.situation walk.course former.entry.done) }
        ensures beside { IfOk result (λ walk. walk.course.beside ≡ beside.entry) }
    {
        let places = cell.inputs();
        fourstate::laws::delays_in_range(&cell.delays());
        laws::value_of_changes::<Driver>();
        let done = former.done;
        let near = Near::new(alloc, &beside, places.len())?;
        let mut readers = open_readers(alloc, cell, along.waves, done)?;
        let reading = read(readers.as_mut_slice(), done, along.table);
        let trace = former.trace.fork(alloc, done, ROOM)?;
        let state = trace.at(done);
        Ok(Walk {
            situation: Situation {
                state,
                inputs: reading.inputs,
                next: reading.next,
            },
            course: Course {
                trace,
                readers,
                table: along.table,
                beside,
                near,
            },
        })
    }

    /// Goes on from the moment after `begin` up to and with `last`, both in time units, and gives the trace. Once the gate does again
    /// what it did in the old run, its trace is that of the old run from then on; from `meeting` on its inputs have the values that
    /// they had there. It fails where memory runs out.
    pub fn go_on<S: Stepper>(
        self,
        cell: &Cell,
        waves: &[Shared<Wave>],
        stepper: &mut S,
        meeting: u64,
        begin: u64,
        last: u64,
    ) -> Result<Trace, AllocError>
        requires none_lost { S.losses stepper.old ≡ 0 }
        requires at { IsAt S.answer cell.now waves.now self.situation self.course begin }
        requires beside { ForSome self.course.beside (λ old. IsOldLine S.answer cell.now last (line_seen old)) }
        requires meeting { ForSome self.course.beside (λ old. (t : ℕ) → meeting ≤ t → t ≤ last → old_inputs (line_seen old) cell.now.inputs t ≡ inputs_by waves.now cell.now.inputs t) }
        requires order { begin ≤ last }
        requires within { last ≤ MAX_TIME }
        ensures trace { IfOk result (λ trace. trace ≡ line_trace S.answer cell.now.kind cell.now.delays (inputs_by waves.now cell.now.inputs) (suc last)) }
        ensures asked { OnOk result (S.asked stepper.new ≡ S.asked stepper.old
            ++ line_work_from S.answer cell.now.kind cell.now.delays (inputs_by waves.now cell.now.inputs) (wanted_by (line_if self.entry.course.beside) cell.now.inputs) (suc begin) (suc last)) }
        ensures part { OnErr result ((n : ℕ) × (suc begin ≤ n) × (n ≤ suc last) × (S.asked stepper.new ≡ S.asked stepper.old
            ++ line_work_from S.answer cell.now.kind cell.now.delays (inputs_by waves.now cell.now.inputs) (wanted_by (line_if self.entry.course.beside) cell.now.inputs) (suc begin) n)) }
        ensures lost { S.losses stepper.new ≡ S.losses stepper.old }
    {
        let _inputs = cell.inputs();
        fourstate::laws::delays_in_range(&cell.delays());
        laws::changes_lie_before::<Driver>();
        let mut situation = self.situation;
        let mut course = self.course;
        let mut t = course.next_moment::<S>(situation, cell, waves, begin, last);
        while t <= last {
            course.pass(&mut situation, cell, waves, stepper, t - 1)?;
            if let Some(old) = course.met(situation.state, meeting, t) {
                return go_along(course.trace, old, t, last);
            }
            t = course.next_moment::<S>(situation, cell, waves, t, last);
        }
        Ok(course.trace)
    }
}

/// A trace up to the moment `t` that goes on as the old one does up to and with `last`, both in time units. It fails where memory
/// runs out.
fn go_along(trace: Trace, old: &Trace, t: u64, last: u64) -> Result<Trace, AllocError>
    requires order { t ≤ last }
    requires within { last ≤ MAX_TIME }
    requires early { All (λ entry. entry.0 < t + 1) trace }
    ensures { IfOk result (λ new. (f : ℕ → State) → IsAlwaysSettled due f → trace ≡ trace_below f (suc t) →
        old.now ≡ trace_below (state_at old.now) (suc last) → ((u : ℕ) → t < u → u ≤ last → state_at old.now u ≡ f u) → new ≡ trace_below f (suc last)) }
{
    laws::value_of_changes::<Driver>();
    laws::changes_of_timeline::<Driver>();
    laws::same_changes::<Driver>();
    laws::cut_of_changes::<Driver>();
    if t == last {
        return Ok(trace);
    }
    let trace = trace.follow(t + 1, last, old)?;
    let _last = trace.last();
    Ok(trace)
}
