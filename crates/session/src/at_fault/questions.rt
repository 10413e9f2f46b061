//! The word at fault of a question that is refused, and of a name for a snapshot.

ghost use Rattle.std.specs.Prelude.{◌≡◌, option_map};
ghost use Rattle.session.specs.WordsAtFault.{change_word_of, hold_word, listing_word, moment_of, net_word, question_word};
ghost use Rattle.session.specs.kept.WordsAtFault.{shown};

use crate::at_fault::fault_word::FaultWord;
use crate::commands::{ChangeName, Listing, NetQuestion, Query, Question};
use crate::replies::Refusal;
use crate::words::WordRef;
use bench::Snapshot;
use edits::EditFault;

/// The word at fault of a question about a snapshot that is refused for this.
pub fn question_word<'w>(
    snapshot: &Snapshot,
    question: &'w Question<'_>,
    refusal: Refusal,
) -> Option<FaultWord<'w>>
    ensures { option_map shown result ≡ question_word question.now snapshot.now refusal }
{
    match question {
        Question::Net(question) => net_word(snapshot.horizon(), question, refusal),
        Question::Vcd => None,
        Question::Listing(listing) => listing_word(listing),
        Question::Why(change) | Question::Reach(change) => change_word(change, refusal),
        Question::Diff(name) => Some(FaultWord::Text(name.as_bytes())),
    }
}

/// The word at fault where a name is refused for this.
pub fn hold_word<'w>(name: &'w WordRef<'_>, refusal: Refusal) -> Option<FaultWord<'w>>
    ensures { option_map shown result ≡ hold_word name.now refusal }
{
    match refusal {
        Refusal::Edit(EditFault::OutOfMemory) => None,
        _ => Some(FaultWord::Text(name.as_bytes())),
    }
}

fn change_word<'w>(change: &'w ChangeName<'_>, refusal: Refusal) -> Option<FaultWord<'w>>
    ensures { option_map shown result ≡ change_word_of change.now refusal }
{
    match refusal {
        Refusal::Edit(EditFault::UnknownNet) => Some(FaultWord::Text(change.net.as_bytes())),
        Refusal::Edit(EditFault::TimeTooLarge) => Some(FaultWord::Number(change.time)),
        _ => None,
    }
}

fn net_word<'w>(
    horizon: u64,
    question: &'w NetQuestion<'_>,
    refusal: Refusal,
) -> Option<FaultWord<'w>>
    ensures { option_map shown result ≡ net_word horizon question.now refusal }
{
    match refusal {
        Refusal::Edit(EditFault::UnknownNet) => Some(FaultWord::Text(question.net.as_bytes())),
        Refusal::Edit(EditFault::TimeTooLarge) => {
            let time = moment_of(horizon, question.query)?;
            Some(FaultWord::Number(time))
        }
        _ => None,
    }
}

// The moment that is asked about; of a window its end where that lies after the horizon, else its beginning.
fn moment_of(horizon: u64, query: Query) -> Option<u64>
    ensures { result ≡ moment_of horizon query }
{
    match query {
        Query::Wave => None,
        Query::Value(time) | Query::Next(time) | Query::Prev(time) | Query::Seek(time, _) => {
            Some(time)
        }
        Query::Window(from, to) | Query::Parts(from, to, _) => {
            Some(if to > horizon { to } else { from })
        }
    }
}

fn listing_word<'w>(listing: &'w Listing<'_>) -> Option<FaultWord<'w>>
    ensures { option_map shown result ≡ listing_word listing.now }
{
    match listing {
        Listing::Gate(name)
        | Listing::Drivers(name)
        | Listing::Readers(name)
        | Listing::Points(name) => Some(FaultWord::Text(name.as_bytes())),
        Listing::Nets | Listing::Inputs | Listing::Gates => None,
    }
}
