//! What is said where the words are refused, or ask for help.

ghost use Rattle.std.specs.Prelude.{◌≡◌};
ghost use Rattle.devices.specs.Outgoing.{Adds};
ghost use Rattle.programs.specs.Endings.{Says};
ghost use Rattle.app.specs.Refusals.{complaint_lines, help_text, refusal_text};

use crate::complaint::Complaint;
use crate::help::{ENDING, EXPLANATION, USAGE};
use crate::program::Program;
use devices::{Sink, Writer};
use fourstate::{MAX_DELAY, MAX_TIME};
use parstep::MAX_WORKERS;
use programs::{
    StopCause, WORDS_REFUSED, WordsFault, say_missing, say_range, say_value, say_words_fault,
};

/// What is wrong with the words that a program was started with.
#[derive(Drop)]
pub struct Refusal {
    pub program: Program,
    pub complaint: Complaint,
}

impl StopCause for Refusal {
    ghost use Rattle.app.specs.Refusals.{refusal_text};
    ghost use Rattle.app.specs.kept.Refusals.{form_fault};

    ghost form_fault = { λ r. form_fault r.complaint };

    ghost refusal = { λ r. refusal_text r.program r.complaint };

    fn words_fault(&self) -> Option<&WordsFault> {
        match &self.complaint {
            Complaint::Words(fault) => Some(fault),
            _ => None,
        }
    }

    fn refuse<E: Sink>(&self, errors: &mut E) -> u8 {
        refuse(self.program, &self.complaint, errors)
    }
}

/// Writes to `sink` what is wrong with the words, and then how to use the program, and answers the status. A write that
/// fails is passed over (own).
pub fn refuse<W: Sink>(program: Program, complaint: &Complaint, sink: &mut W) -> u8
    ensures status { result ≡ 2 }
    ensures text { Says (W.contents sink.old) (W.contents sink.new)
        (W.failures sink.old) (W.failures sink.new) (refusal_text program complaint.now) }
{
    let mut writer = Writer::new(sink);
    say_refusal(&mut writer, program, complaint);
    let _ = writer.flush();
    let _sink = writer.finish();
    WORDS_REFUSED
}

fn say_refusal<W: Sink>(writer: &mut Writer<'_, W>, program: Program, complaint: &Complaint)
    ensures { Adds writer.old writer.new (refusal_text program complaint.now) }
{
    say_complaint(writer, complaint);
    say_help(writer, program);
}

#[tactic(auto, unfolding(crate::specs::Refusals::help_text))]
fn say_help<W: Sink>(writer: &mut Writer<'_, W>, program: Program)
    ensures { Adds writer.old writer.new (help_text program) }
{
    writer.text(USAGE.as_bytes());
    writer.text(program.name().as_bytes());
    writer.text(EXPLANATION.as_bytes());
    writer.text(program.name().as_bytes());
    writer.text(ENDING.as_bytes());
}

fn say_complaint<W: Sink>(writer: &mut Writer<'_, W>, complaint: &Complaint)
    ensures { Adds writer.old writer.new (complaint_lines complaint.now) }
{
    match complaint {
        Complaint::Words(fault) => say_words_fault(writer, fault),
        Complaint::NoDesign => say_missing(writer, "  <DESIGN>\n"),
        Complaint::Horizon(value) => {
            say_value(writer, value.as_str(), "--horizon <H>");
            say_range(writer, 0, MAX_TIME);
        }
        Complaint::Workers(value) => {
            say_value(writer, value.as_str(), "--workers <N>");
            say_range(writer, 1, u64::from(MAX_WORKERS));
        }
        Complaint::Delay(value) => {
            say_value(writer, value.as_str(), "--delay <D>");
            say_range(writer, 1, MAX_DELAY);
        }
    }
}
