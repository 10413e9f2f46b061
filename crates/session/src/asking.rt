//! Questions about a snapshot.

ghost use Rattle.std.specs.Prelude.{◌≡◌, true, is_some, Ok, Err, IfOk, MatchResult};
ghost use Rattle.fourstate.specs.Values.{same_value};
ghost use Rattle.waveform.specs.Entries.{standing};
ghost use Rattle.waveform.specs.kept.Timelines.{IsTimeline};
ghost use Rattle.session.specs.Questions.{changes_asked};
ghost use Rattle.session.specs.State.{net_result, question_result};
ghost use Rattle.session.specs.kept.State.{is_diff};
ghost use Rattle.session.specs.kept.ToolAnswers.{Tells};

use crate::commands::{NetQuestion, Question};
use crate::held::Held;
use crate::replies::{Refusal, ok, tell};
use crate::tool_asking::{answer_diff, answer_listing, answer_reach, answer_why};
use bench::Snapshot;
use devices::{Sink, Writer};
use differences::Room;
use edits::EditFault;
use fourstate::Value;
use vcd::text;
use waveform::{Wave, laws};

/// Answers a question about a snapshot, or tells why it is refused, beside the snapshots that are held. It takes no memory; what
/// differs from another snapshot needs room for it.
pub fn answer_question<W: Sink>(
    snapshot: &Snapshot,
    held: &Held,
    room: &mut Option<Room>,
    question: &Question<'_>,
    writer: &mut Writer<'_, W>,
) -> Result<(), Refusal>
    requires { is_diff question.now ≡ true → is_some room.old ≡ true }
    ensures answer { Tells (question_result held.now question.now snapshot.now) writer.old writer.new result }
    ensures room { is_some room.new ≡ is_some room.old }
{
    match question {
        Question::Net(question) => answer_of_net(snapshot, question, writer),
        Question::Vcd => {
            text(snapshot, writer);
            ok(writer, snapshot.version());
            Ok(())
        }
        Question::Listing(listing) => answer_listing(snapshot, listing, writer),
        Question::Why(change) => answer_why(snapshot, change, writer),
        Question::Reach(change) => answer_reach(snapshot, change, writer),
        Question::Diff(name) => match room {
            Some(room) => answer_diff(snapshot, held, name, room, writer),
            None => unreachable!(),
        },
    }
}

fn answer_of_net<W: Sink>(
    snapshot: &Snapshot,
    question: &NetQuestion<'_>,
    writer: &mut Writer<'_, W>,
) -> Result<(), Refusal>
    ensures { Tells (net_result question.now snapshot.now) writer.old writer.new result }
{
    match wave_asked(snapshot, question) {
        Ok(wave) => {
            tell(writer, wave, question.query);
            ok(writer, snapshot.version());
            Ok(())
        }
        Err(fault) => Err(Refusal::Edit(fault)),
    }
}

// The wave that a question is about, or why the question is refused.
fn wave_asked<'s>(snapshot: &'s Snapshot, question: &NetQuestion<'_>) -> Result<&'s Wave, EditFault>
    ensures asked { MatchResult result
        (λ wave. changes_asked snapshot.now.design question.now ≡ Ok wave.now)
        (λ fault. changes_asked snapshot.now.design question.now ≡ Err fault) }
    ensures timeline { IfOk result (λ wave. IsTimeline same_value standing wave.now) }
{
    laws::timeline_of_changes::<Value>();
    let Some(wave) = snapshot.wave(question.net.as_str()) else {
        return Err(EditFault::UnknownNet);
    };
    if question.query.is_past(snapshot.horizon()) {
        return Err(EditFault::TimeTooLarge);
    }
    Ok(wave)
}
