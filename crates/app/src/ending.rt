//! The last words on standard error, and the status.

ghost use Rattle.std.specs.Prelude.{◌≡◌, ◌++◌, IfSome, Option, length};
ghost use Rattle.devices.specs.Outgoing.{Adds};
ghost use Rattle.programs.specs.Endings.{Says};
ghost use Rattle.vread.specs.kept.Details.{IsWordInside};
ghost use Rattle.vread.specs.declared.detail.FaultDetail as details;
ghost use Rattle.app.specs.FaultLines.{MayBeTold, second_line};
ghost use Rattle.app.specs.Endings.{edit_line, ending_status, ending_text, fault_line, fault_status};

use crate::arguments::Args;
use crate::fault_line::say_fault_line;
use crate::program::Program;
use design::NameHasher;
use devices::{Sink, Writer};
use edits::EditFault;
use programs::{BROKEN_OFF, Breakdown, ENDED, REFUSED, WORDS_REFUSED, say_breakdown, say_design};
use session::SessionFault;
use std::random::RandomSource;
use vread::{FaultDetail, fault_detail};

/// Writes a line to `sink` that says why a session broke off or did not open, and answers the status. Where the program is
/// for tools and the text is refused, a second line says at which word. It writes nothing where the session ended well, and a
/// write that fails is passed over (own).
pub fn ending<T: AllocGlobal + RandomSource, W: Sink>(
    rt: &T,
    program: Program,
    text: &[u8],
    args: &Args,
    outcome: &Result<(), SessionFault>,
    sink: &mut W,
) -> u8
    ensures status { result ≡ ending_status outcome.now }
    ensures text { (detail : Option details.FaultDetail) × MayBeTold program args.now.delay text.now outcome.now detail
        × Says (W.contents sink.old) (W.contents sink.new) (W.failures sink.old) (W.failures sink.new) (ending_text outcome.now ++ second_line text.now detail) }
{
    let detail = told(rt, program, text, args, outcome);
    end_with(text, outcome, &detail, sink)
}

fn end_with<W: Sink>(
    text: &[u8],
    outcome: &Result<(), SessionFault>,
    detail: &Option<FaultDetail>,
    sink: &mut W,
) -> u8
    requires { IfSome detail.now (λ detail. IsWordInside (length text.now) detail.word) }
    ensures status { result ≡ ending_status outcome.now }
    ensures text { Says (W.contents sink.old) (W.contents sink.new)
        (W.failures sink.old) (W.failures sink.new) (ending_text outcome.now ++ second_line text.now detail.now) }
{
    let mut writer = Writer::new(sink);
    say_lines(&mut writer, text, outcome, detail);
    let _ = writer.flush();
    let _sink = writer.finish();
    status_of(outcome)
}

/// What the fault of a refused text is told by, to tools; none where memory runs out.
fn told<T: AllocGlobal + RandomSource>(
    rt: &T,
    program: Program,
    text: &[u8],
    args: &Args,
    outcome: &Result<(), SessionFault>,
) -> Option<FaultDetail>
    ensures told { MayBeTold program args.now.delay text.now outcome.now result }
    ensures inside { IfSome result (λ detail. IsWordInside (length text.now) detail.word) }
{
    if !program.is_tool() {
        return None;
    }
    match outcome {
        Err(SessionFault::Design(_)) => {
            fault_detail(rt.alloc(), NameHasher::new(rt), text, args.delay).ok()
        }
        _ => None,
    }
}

fn say_lines<W: Sink>(
    writer: &mut Writer<'_, W>,
    text: &[u8],
    outcome: &Result<(), SessionFault>,
    detail: &Option<FaultDetail>,
)
    requires { IfSome detail.now (λ detail. IsWordInside (length text.now) detail.word) }
    ensures { Adds writer.old writer.new (ending_text outcome.now ++ second_line text.now detail.now) }
{
    say_outcome(writer, outcome);
    if let Some(detail) = detail {
        say_fault_line(writer, text, detail);
    }
}

fn status_of(outcome: &Result<(), SessionFault>) -> u8
    ensures { result ≡ ending_status outcome.now }
{
    match outcome {
        Ok(()) => ENDED,
        Err(SessionFault::Design(_)) => REFUSED,
        Err(SessionFault::Edit(_)) => WORDS_REFUSED,
        Err(_) => BROKEN_OFF,
    }
}

fn say_outcome<W: Sink>(writer: &mut Writer<'_, W>, outcome: &Result<(), SessionFault>)
    ensures { Adds writer.old writer.new (ending_text outcome.now) }
{
    match outcome {
        Ok(()) => {}
        Err(fault) => say_fault(writer, *fault),
    }
}

fn say_fault<W: Sink>(writer: &mut Writer<'_, W>, fault: SessionFault)
    ensures { Adds writer.old writer.new (fault_line fault) }
{
    match fault {
        SessionFault::Design(fault) => say_design(writer, fault),
        SessionFault::Edit(fault) => say_edit(writer, fault),
        SessionFault::OutOfMemory => say_breakdown(writer, Breakdown::OutOfMemory),
        SessionFault::WorkerLost => writer.text(b"worker lost\n"),
        SessionFault::Read => say_breakdown(writer, Breakdown::Read),
        SessionFault::Write => say_breakdown(writer, Breakdown::Write),
    }
}

fn say_edit<W: Sink>(writer: &mut Writer<'_, W>, fault: EditFault)
    ensures { Adds writer.old writer.new (edit_line fault) }
{
    writer.text(b"horizon: ");
    writer.number(u64::from(fault.code()));
    writer.text(b" ");
    writer.text(fault.name().as_bytes());
    writer.text(b"\n");
}
