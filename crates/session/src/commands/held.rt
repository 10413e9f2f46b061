//! The commands about held snapshots. Each is read behind its first word.

ghost use Rattle.std.specs.Prelude.{◌≡◌};
ghost use Rattle.session.specs.Commands.{at_command, free_command, hold_command, question_in, question_with};

use crate::commands::ask::read_question;
use crate::commands::command::Command;
use crate::commands::question::Question;
use crate::commands::verb::Verb;
use crate::words::Words;

/// `hold K`.
pub fn read_hold(words: Words<'_>) -> Command<'_>
    ensures { result ≡ hold_command words.entry }
{
    match words.one() {
        Some(name) => Command::Hold(name),
        None => Command::Unreadable,
    }
}

/// `free K`.
pub fn read_free(words: Words<'_>) -> Command<'_>
    ensures { result ≡ free_command words.entry }
{
    match words.one() {
        Some(name) => Command::Free(name),
        None => Command::Unreadable,
    }
}

/// `at K LINE`, where LINE is a question.
pub fn read_at(words: Words<'_>) -> Command<'_>
    ensures { result ≡ at_command words.entry }
{
    let mut rest = words;
    let Some(name) = rest.next() else {
        return Command::Unreadable;
    };
    match read_line_question(rest) {
        Some(question) => Command::At { name, question },
        None => Command::Unreadable,
    }
}

// The question that words ask, its verb first.
fn read_line_question(words: Words<'_>) -> Option<Question<'_>>
    ensures { result ≡ question_in words.entry }
{
    let mut rest = words;
    let first = rest.next()?;
    let verb = Verb::from_keyword(first.as_bytes())?;
    question_by(verb, rest)
}

fn question_by(verb: Verb, words: Words<'_>) -> Option<Question<'_>>
    ensures { result ≡ question_with verb words.entry }
{
    match verb {
        Verb::Ask(verb) => read_question(verb, words),
        _ => None,
    }
}
