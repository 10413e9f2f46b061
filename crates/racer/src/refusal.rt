//! What is said where the words are refused, or ask for help.

ghost use Rattle.std.specs.Prelude.{◌≡◌};
ghost use Rattle.devices.specs.Outgoing.{Adds};
ghost use Rattle.programs.specs.Endings.{Says};
ghost use Rattle.racer.specs.Refusals.{complaint_lines, missing_words, refusal_text};

use crate::arguments::MAX_LOOKS;
use crate::complaint::{Complaint, Place};
use crate::help::HELP;
use devices::{Sink, Writer};
use hub::MAX_VIEWERS;
use programs::{
    StopCause, WORDS_REFUSED, WordsFault, say_missing, say_range, say_value, say_words_fault,
};

impl StopCause for Complaint {
    ghost use Rattle.racer.specs.Refusals.{refusal_text};
    ghost use Rattle.racer.specs.kept.Refusals.{form_fault};

    ghost form_fault = { form_fault };

    ghost refusal = { refusal_text };

    fn words_fault(&self) -> Option<&WordsFault> {
        match self {
            Complaint::Words(fault) => Some(fault),
            _ => None,
        }
    }

    fn refuse<E: Sink>(&self, errors: &mut E) -> u8 {
        refuse(self, errors)
    }
}

/// Writes to `sink` what is wrong with the words, and then how to use the program, and answers the status. A write that
/// fails is passed over (own).
pub fn refuse<W: Sink>(complaint: &Complaint, sink: &mut W) -> u8
    ensures status { result ≡ 2 }
    ensures text { Says (W.contents sink.old) (W.contents sink.new)
        (W.failures sink.old) (W.failures sink.new) (refusal_text complaint.now) }
{
    let mut writer = Writer::new(sink);
    say_refusal(&mut writer, complaint);
    let _ = writer.flush();
    let _sink = writer.finish();
    WORDS_REFUSED
}

fn say_refusal<W: Sink>(writer: &mut Writer<'_, W>, complaint: &Complaint)
    ensures { Adds writer.old writer.new (refusal_text complaint.now) }
{
    say_complaint(writer, complaint);
    writer.text(HELP.as_bytes());
}

fn say_complaint<W: Sink>(writer: &mut Writer<'_, W>, complaint: &Complaint)
    ensures { Adds writer.old writer.new (complaint_lines complaint.now) }
{
    match complaint {
        Complaint::Words(fault) => say_words_fault(writer, fault),
        Complaint::Missing(place) => say_missing(writer, words_from(*place)),
        Complaint::Viewers(value) => {
            say_value(writer, value.as_str(), "<VIEWERS>");
            say_range(writer, 1, u64::from(MAX_VIEWERS));
        }
        Complaint::Looks(value) => {
            say_value(writer, value.as_str(), "<LOOKS>");
            say_range(writer, 1, u64::from(MAX_LOOKS));
        }
    }
}

// A line for each word from this one on.
fn words_from(place: Place) -> &'static str
    ensures { result.now ≡ missing_words place }
{
    match place {
        Place::Design => "  <DESIGN>\n  <SCRIPT>\n  <VIEWERS>\n  <LOOKS>\n",
        Place::Script => "  <SCRIPT>\n  <VIEWERS>\n  <LOOKS>\n",
        Place::Viewers => "  <VIEWERS>\n  <LOOKS>\n",
        Place::Looks => "  <LOOKS>\n",
    }
}
