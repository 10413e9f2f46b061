//! The commands that ask.

ghost use Rattle.std.specs.Prelude.{◌≡◌};
ghost use Rattle.session.specs.Commands.{next_question, prev_question, question_of, seek_question, value_question, vcd_question, wave_question};

use crate::commands::question::{NetQuestion, Query, Question};
use crate::commands::times::{read_name_and_time, read_value};
use crate::commands::verb::AskVerb;
use crate::words::{Words, number};

/// The question that a verb asks with the words behind it; none where these are unreadable.
pub fn read_question(verb: AskVerb, words: Words<'_>) -> Option<Question<'_>>
    ensures { result ≡ question_of verb words.entry }
{
    match verb {
        AskVerb::Value => ask_value(words),
        AskVerb::Wave => ask_wave(words),
        AskVerb::Next => ask_next(words),
        AskVerb::Prev => ask_prev(words),
        AskVerb::Seek => ask_seek(words),
        AskVerb::Vcd => ask_vcd(words),
    }
}

// `value N T`, behind its first word.
fn ask_value(words: Words<'_>) -> Option<Question<'_>>
    ensures { result ≡ value_question words.entry }
{
    let (net, time) = read_name_and_time(words)?;
    let query = Query::Value(time);
    Some(Question::Net(NetQuestion { net, query }))
}

// `wave N`, behind its first word.
fn ask_wave(words: Words<'_>) -> Option<Question<'_>>
    ensures { result ≡ wave_question words.entry }
{
    let net = words.one()?;
    let query = Query::Wave;
    Some(Question::Net(NetQuestion { net, query }))
}

// `next N T`, behind its first word.
fn ask_next(words: Words<'_>) -> Option<Question<'_>>
    ensures { result ≡ next_question words.entry }
{
    let (net, time) = read_name_and_time(words)?;
    let query = Query::Next(time);
    Some(Question::Net(NetQuestion { net, query }))
}

// `prev N T`, behind its first word.
fn ask_prev(words: Words<'_>) -> Option<Question<'_>>
    ensures { result ≡ prev_question words.entry }
{
    let (net, time) = read_name_and_time(words)?;
    let query = Query::Prev(time);
    Some(Question::Net(NetQuestion { net, query }))
}

// `seek N T V`, behind its first word.
fn ask_seek(words: Words<'_>) -> Option<Question<'_>>
    ensures { result ≡ seek_question words.entry }
{
    let (net, time, value) = words.three()?;
    let time = number(time.as_bytes())?;
    let value = read_value(value.as_bytes())?;
    let query = Query::Seek(time, value);
    Some(Question::Net(NetQuestion { net, query }))
}

// `vcd`, behind its first word.
fn ask_vcd(words: Words<'_>) -> Option<Question<'_>>
    ensures { result ≡ vcd_question words.entry }
{
    if words.none() {
        Some(Question::Vcd)
    } else {
        None
    }
}
