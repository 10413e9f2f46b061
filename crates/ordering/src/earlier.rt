//! The run of the same design up to an earlier horizon.

ghost use Rattle.std.specs.Prelude.{◌≡◌, ◌<◌, ◌≤◌, suc, length, slice_get, IfSome};
ghost use Rattle.std.specs.Option.{ForSome};
ghost use Rattle.design.specs.Keys.{netlist};
ghost use Rattle.gateline.specs.kept.Starts.{begin_of};
ghost use Rattle.ordering.specs.kept.Earlier.{IsEarlier, begin_after};
ghost use Rattle.scratch.specs.Run.{state_after};
ghost use Rattle.waveform.specs.kept.Changes.{trace_below};

use design::Design;
use gateline::Former;
use gatestep::Stepper;
use scratch::trace_at;
use waveform::Run;

/// A run from which another one goes on.
#[derive(Clone, Copy)]
pub struct EarlierRun<'a> {
    /// The design that was run: the same one, with an earlier horizon or this one.
    pub design: &'a Design,
    /// Its run.
    pub run: &'a Run,
}

/// The gate at a place in the order of the gates, as far as it was followed in an earlier run of the design.
fn former_trace<'a, S: Stepper>(
    design: &Design,
    earlier: EarlierRun<'a>,
    place: usize,
) -> Former<'a>
    requires earlier { IsEarlier S.answer design.now earlier }
    requires there { place < length (netlist design.now).gates }
    ensures done { result.done ≡ (netlist earlier.entry.design.now).horizon }
    ensures trace { IfSome (slice_get (netlist design.now).gates place) (λ g. result.trace.now ≡ trace_below (state_after S.answer (netlist design.now) g) (suc result.done)) }
{
    let _design = design;
    let done = earlier.design.horizon();
    let trace = trace_at(earlier.design, earlier.run, place);
    Former { trace, done }
}

/// The same, if there is an earlier run.
pub fn former_of<'a, S: Stepper>(
    design: &Design,
    earlier: Option<EarlierRun<'a>>,
    place: usize,
) -> Option<Former<'a>>
    requires earlier { IfSome earlier (IsEarlier S.answer design.now) }
    requires there { place < length (netlist design.now).gates }
    ensures begin { begin_of result ≡ begin_after earlier.entry }
    ensures order { ForSome result (λ former. former.done ≤ (netlist design.now).horizon) }
    ensures trace { ForSome result (λ former. IfSome (slice_get (netlist design.now).gates place) (λ g. former.trace.now ≡ trace_below (state_after S.answer (netlist design.now) g) (suc former.done))) }
{
    match earlier {
        None => None,
        Some(run) => Some(former_trace::<S>(design, run, place)),
    }
}
