//! The questions that tools ask beside the commands of a session.

ghost use Rattle.std.specs.Prelude.{◌≡◌, drop, option_map};
ghost use Rattle.session.specs.Words.{name_and_time, words};
ghost use Rattle.session.specs.ToolCommands.{if_plain, listing_alone, named_command, parts_of, request_by, tool_at_command, tool_command, tool_question_in, tool_question_of, tool_request_within, whole_window, window_in_parts, window_question};

use crate::commands::command::{Command, ask, read, read_words, return_cut};
use crate::commands::question::{ChangeName, Listing, NetQuestion, Query, Question};
use crate::commands::request::Request;
use crate::commands::times::read_name_and_time;
use crate::commands::tool_verb::ToolVerb;
use crate::words::{RawWords, Words, number};

/// Into how many parts a window is cut at most.
pub const MAX_PARTS: u64 = 65_536;

/// Reads a line, which comes without its line feed, by whether the questions of tools are known: with them some lines that are
/// no command without them are questions, or name the word at fault. It takes no memory.
pub fn read_by(tools: bool, line: &[u8]) -> Request<'_>
    ensures { result ≡ request_by tools line.now }
{
    let command = read(line);
    if !tools {
        return Request::Plain(command);
    }
    match command {
        Command::Unreadable => read_further(return_cut(line)),
        command => Request::Plain(command),
    }
}

fn read_further(line: &[u8]) -> Request<'_>
    ensures { result ≡ tool_request_within line.now }
{
    let mut behind = RawWords::new(line);
    match behind.next() {
        Some(first) if b"fault".as_slice() == first => Request::Naming(read_named(line), behind),
        _ => Request::Plain(read_plain(line)),
    }
}

fn read_plain(line: &[u8]) -> Command<'_>
    ensures { result ≡ if_plain line.now (tool_command (words line.now)) }
{
    match Words::new(line) {
        Some(words) => read_command(words),
        None => Command::Unreadable,
    }
}

// The command behind the first word of a line.
fn read_named(line: &[u8]) -> Command<'_>
    ensures { result ≡ if_plain line.now (named_command (drop 1 (words line.now))) }
{
    let Some(mut words) = Words::new(line) else {
        return Command::Unreadable;
    };
    let _first = words.next();
    read_any(words)
}

// Any command; no words are none.
fn read_any(words: Words<'_>) -> Command<'_>
    ensures { result ≡ named_command words.entry }
{
    if words.again().none() {
        return Command::Unreadable;
    }
    match read_words(words.again()) {
        Command::Unreadable => read_command(words),
        command => command,
    }
}

fn read_command(words: Words<'_>) -> Command<'_>
    ensures { result ≡ tool_command words.entry }
{
    let mut rest = words.again();
    let Some(first) = rest.next() else {
        return Command::Unreadable;
    };
    if b"at".as_slice() == first.as_bytes() {
        read_at(rest)
    } else {
        ask(read_question(words))
    }
}

// `at K LINE`, behind its first word.
fn read_at(words: Words<'_>) -> Command<'_>
    ensures { result ≡ tool_at_command words.entry }
{
    let mut rest = words;
    let Some(name) = rest.next() else {
        return Command::Unreadable;
    };
    match read_question(rest) {
        Some(question) => Command::At { name, question },
        None => Command::Unreadable,
    }
}

fn read_question(words: Words<'_>) -> Option<Question<'_>>
    ensures { result ≡ tool_question_in words.entry }
{
    let mut rest = words;
    let first = rest.next()?;
    let verb = ToolVerb::from_keyword(first.as_bytes())?;
    question_by(verb, rest)
}

// The question that a verb asks with the words behind it; none where these are unreadable.
fn question_by(verb: ToolVerb, words: Words<'_>) -> Option<Question<'_>>
    ensures { result ≡ tool_question_of verb words.entry }
{
    match verb {
        ToolVerb::Nets => ask_alone(words, Listing::Nets),
        ToolVerb::Inputs => ask_alone(words, Listing::Inputs),
        ToolVerb::Gates => ask_alone(words, Listing::Gates),
        ToolVerb::Gate => Some(Question::Listing(Listing::Gate(words.one()?))),
        ToolVerb::Drivers => Some(Question::Listing(Listing::Drivers(words.one()?))),
        ToolVerb::Readers => Some(Question::Listing(Listing::Readers(words.one()?))),
        ToolVerb::Points => Some(Question::Listing(Listing::Points(words.one()?))),
        ToolVerb::Window => ask_window(words),
        ToolVerb::Why => Some(Question::Why(read_change(words)?)),
        ToolVerb::Reach => Some(Question::Reach(read_change(words)?)),
        ToolVerb::Diff => Some(Question::Diff(words.one()?)),
    }
}

// A net and a moment at which it may change.
fn read_change(words: Words<'_>) -> Option<ChangeName<'_>>
    ensures { result ≡ option_map (λ w. record { net = w.0; time = w.1 }) (name_and_time words.entry) }
{
    let (net, time) = read_name_and_time(words)?;
    Some(ChangeName { net, time })
}

// A question of one word.
fn ask_alone<'a>(words: Words<'a>, listing: Listing<'a>) -> Option<Question<'a>>
    ensures { result ≡ listing_alone words.entry listing.entry }
{
    if words.none() {
        Some(Question::Listing(listing))
    } else {
        None
    }
}

// `window N FROM TO` or `window N FROM TO PARTS`, behind its first word.
fn ask_window(words: Words<'_>) -> Option<Question<'_>>
    ensures { result ≡ window_question words.entry }
{
    match ask_whole_window(words.again()) {
        Some(question) => Some(question),
        None => ask_window_in_parts(words),
    }
}

fn ask_whole_window(words: Words<'_>) -> Option<Question<'_>>
    ensures { result ≡ whole_window words.entry }
{
    let (net, from, to) = words.three()?;
    let from = number(from.as_bytes())?;
    let to = number(to.as_bytes())?;
    let query = Query::Window(from, to);
    Some(Question::Net(NetQuestion { net, query }))
}

fn ask_window_in_parts(words: Words<'_>) -> Option<Question<'_>>
    ensures { result ≡ window_in_parts words.entry }
{
    let (net, from, to, parts) = words.four()?;
    let from = number(from.as_bytes())?;
    let to = number(to.as_bytes())?;
    let parts = read_parts(parts.as_bytes())?;
    let query = Query::Parts(from, to, parts);
    Some(Question::Net(NetQuestion { net, query }))
}

/// How many parts a word asks for.
pub fn read_parts(word: &[u8]) -> Option<u64>
    ensures { result ≡ parts_of word.now }
{
    let parts = number(word)?;
    if 1 <= parts && parts <= MAX_PARTS {
        Some(parts)
    } else {
        None
    }
}
