//! The opening of a session.

ghost use Rattle.std.specs.Prelude.{◌≡◌, ◌≤◌, ◌<◌, [], IfErr, IfOk, OnOk};
ghost use Rattle.fourstate.specs.declared.limits.TheConstants.{MAX_TIME};
ghost use Rattle.gatestep.specs.Step.{advance};
ghost use Rattle.design.specs.Keys.{netlist};
ghost use Rattle.design.specs.Netlist.{with_horizon};
ghost use Rattle.vread.specs.Reads.{Spells};
ghost use Rattle.session.specs.Opening.{IsOpeningFault, IsTextRefused, Opens, Refuses};
ghost use Rattle.session.specs.kept.Opening.{fault_by};
ghost use Rattle.session.specs.Outcomes.{Ran};
ghost use Rattle.session.specs.kept.Outcomes.{outcome_of};
ghost use Rattle.session.specs.Standing.{opened_with};
ghost use Rattle.session.specs.Traffic.{sink_traffic, source_traffic};

use crate::fault::SessionFault;
use crate::machine::Machine;
use crate::talk::{End, LineBuffer, Session, serve};
use design::{Design, NameHasher};
use devices::{Sink, Source};
use edits::EditFault;
use fourstate::MAX_TIME;
use gatestep::{StepFault, Stepper};
use std::alloc::Global;
use std::random::RandomSource;
use std::sync::Wait;
use vread::read;
use vtext::{ReadFault, ReadFaultKind};

/// How a session is opened.
#[derive(Clone, Copy, Debug, PartialEq, Eq)]
pub struct Options {
    /// The last moment of the runs, in time units, at most `MAX_TIME`.
    pub horizon: u64,
    /// The delay of gates that the design text writes without one, in time units, 1 to `MAX_DELAY`. Without it such a gate
    /// is a fault of the text.
    pub delay: Option<u32>,
    /// Whether the questions of tools are known beside the commands.
    pub tools: bool,
}

/// Opens the design that a text spells, answers the lines of the source in order, and writes the replies to the sink,
/// until a line `quit` or the input's end. It waits for the source, and memory is asked for at the opening and by edits
/// alone.
pub fn run<T: Wait + RandomSource, R: Source, W: Sink, S: Stepper + Drop>(
    rt: &T,
    alloc: Global,
    design: &[u8],
    options: &Options,
    source: &mut R,
    sink: &mut W,
    stepper: S,
) -> Result<(), SessionFault>
    requires { S.answer ≡ advance }
    ensures ran { Ran design.now options.now
        (source_traffic R.remaining R.taken R.failures source.old source.new)
        (sink_traffic W.contents W.failures sink.old sink.new) result }
    // A session that does not open touches neither device.
    ensures unopened { IfErr result (λ fault. IsOpeningFault fault → (source.new ≡ source.old) × (sink.new ≡ sink.old)) }
{
    let names = NameHasher::new(rt);
    let mut session = open(alloc, names, design, options, stepper)?;
    let end = serve(rt, &mut session, source, sink);
    outcome(end)
}

fn outcome(end: End) -> Result<(), SessionFault>
    ensures { result ≡ outcome_of end }
{
    match end {
        End::Input | End::Quit => Ok(()),
        End::ReadFailed => Err(SessionFault::Read),
        End::WriteFailed => Err(SessionFault::Write),
    }
}

fn open<S: Stepper + Drop>(
    alloc: Global,
    names: NameHasher,
    text: &[u8],
    options: &Options,
    stepper: S,
) -> Result<Session<S>, SessionFault>
    requires { S.answer ≡ advance }
    ensures state { IfOk result (λ session. (session.line ≡ []) × Opens text.now options.now session.machine) }
    ensures refused { IfErr result (λ fault. IsOpeningFault fault × Refuses text.now options.now fault) }
{
    let design = opened(alloc, names, text, options)?;
    match start(alloc, options.tools, design, stepper) {
        Ok(session) => Ok(session),
        Err(StepFault::OutOfMemory) => Err(SessionFault::OutOfMemory),
        Err(StepFault::WorkerLost) => Err(SessionFault::WorkerLost),
    }
}

// The design that a text spells, up to the horizon.
fn opened(
    alloc: Global,
    names: NameHasher,
    text: &[u8],
    options: &Options,
) -> Result<Design, SessionFault>
    ensures state { IfOk result (λ design. Opens text.now options.now (opened_with options.now.tools (netlist design))) }
    ensures refused { IfErr result (λ fault. IsOpeningFault fault × Refuses text.now options.now fault) }
{
    let design = spelled(alloc, names, text, options.delay)?;
    up_to(design, options.horizon)
}

fn spelled(
    alloc: Global,
    names: NameHasher,
    text: &[u8],
    delay: Option<u32>,
) -> Result<Design, SessionFault>
    ensures design { IfOk result (λ design. Spells delay text.now (netlist design)) }
    ensures refused { IfErr result (IsTextRefused delay text.now) }
{
    match read(alloc, names, text, delay) {
        Ok(design) => Ok(design),
        Err(fault) => Err(text_fault(fault)),
    }
}

fn text_fault(fault: ReadFault) -> SessionFault
    ensures { result ≡ fault_by fault.kind fault }
{
    match fault.kind {
        ReadFaultKind::Edit(EditFault::OutOfMemory) => SessionFault::OutOfMemory,
        _ => SessionFault::Design(fault),
    }
}

fn up_to(design: Design, horizon: u64) -> Result<Design, SessionFault>
    ensures within { OnOk result (horizon ≤ MAX_TIME) }
    ensures design { IfOk result (λ made. netlist made ≡ with_horizon (netlist design) horizon) }
    ensures over { IfErr result (λ fault. (fault ≡ SessionFault.Edit EditFault.TimeTooLarge) × (MAX_TIME < horizon)) }
{
    if horizon > MAX_TIME {
        Err(SessionFault::Edit(EditFault::TimeTooLarge))
    } else {
        Ok(design.set_horizon(horizon))
    }
}

fn start<S: Stepper + Drop>(
    alloc: Global,
    tools: bool,
    design: Design,
    stepper: S,
) -> Result<Session<S>, StepFault>
    requires { S.answer ≡ advance }
    ensures { IfOk result (λ session. (session.line ≡ []) × (session.machine ≡ opened_with tools (netlist design))) }
{
    let line = LineBuffer::new(alloc)?;
    let machine = Machine::open(alloc, tools, design, stepper)?;
    Ok(Session { line, machine })
}
