//! The command of a line.

ghost use Rattle.std.specs.Prelude.{◌≡◌};
ghost use Rattle.session.specs.Commands.{alone, ask_of, change_of, command_of, command_within, verb_command, words_command};
ghost use Rattle.session.specs.Lines.{without_return};
ghost use Rattle.session.specs.State.{is_quit};
ghost use Rattle.session.specs.Words.{are_skipped, words};

use crate::commands::ask::read_question;
use crate::commands::edit_line::{EditLine, read_edit};
use crate::commands::held::{read_at, read_free, read_hold};
use crate::commands::question::Question;
use crate::commands::verb::Verb;
use crate::words::{WordRef, Words, without_blanks};

/// The most bytes of a line, without its line feed (own).
pub const LINE_LIMIT: usize = 4_096;

/// What a line asks.
#[derive(Drop)]
pub enum Command<'a> {
    /// Nothing: the line is blank or a comment.
    Skip,
    /// A change of the design.
    Change(EditLine<'a>),
    /// The beginning of a batch.
    Begin,
    /// The commit of the batch.
    Commit,
    /// The end of the batch without a commit.
    Abort,
    /// A question about the present snapshot.
    Ask(Question<'a>),
    /// A name for the present snapshot.
    Hold(WordRef<'a>),
    /// The end of such a name.
    Free(WordRef<'a>),
    /// A question about the snapshot that is held under the name.
    At {
        name: WordRef<'a>,
        question: Question<'a>,
    },
    /// The end of the session.
    Quit,
    /// What can't be read.
    Unreadable,
    /// What no line may be.
    TooLong,
}

impl Command<'_> {
    /// Whether it ends the session.
    pub fn is_quit(&self) -> bool
        ensures { result ≡ is_quit self.now }
    {
        matches!(self, Command::Quit)
    }
}

/// Reads a line, which comes without its line feed. It takes no memory.
pub fn read(line: &[u8]) -> Command<'_>
    ensures { result ≡ command_of line.now }
{
    if line.len() > LINE_LIMIT {
        return Command::TooLong;
    }
    read_within(return_cut(line))
}

/// A line without the one byte 13 at its very end.
pub fn return_cut(line: &[u8]) -> &[u8]
    ensures { result.now ≡ without_return line.now }
{
    if !line.is_empty() && line[line.len() - 1] == b'\r' {
        &line[..line.len() - 1]
    } else {
        line
    }
}

fn read_within(line: &[u8]) -> Command<'_>
    ensures { result ≡ command_within line.now }
{
    if is_skipped(line) {
        return Command::Skip;
    }
    match Words::new(line) {
        Some(words) => read_words(words),
        None => Command::Unreadable,
    }
}

fn is_skipped(line: &[u8]) -> bool
    ensures { result ≡ are_skipped (words line.now) }
{
    match without_blanks(line) {
        [] => true,
        [first, ..] => *first == b'#',
    }
}

/// The command of the words of a line; none is skipped.
pub fn read_words(words: Words<'_>) -> Command<'_>
    ensures { result ≡ words_command words.entry }
{
    let mut rest = words;
    let Some(first) = rest.next() else {
        return Command::Skip;
    };
    match Verb::from_keyword(first.as_bytes()) {
        Some(verb) => read_behind(verb, rest),
        None => Command::Unreadable,
    }
}

// The command of a verb and the words behind it.
fn read_behind(verb: Verb, words: Words<'_>) -> Command<'_>
    ensures { result ≡ verb_command verb words.entry }
{
    match verb {
        Verb::Edit(verb) => change(read_edit(verb, words)),
        Verb::Begin => read_alone(words, Command::Begin),
        Verb::Commit => read_alone(words, Command::Commit),
        Verb::Abort => read_alone(words, Command::Abort),
        Verb::Ask(verb) => ask(read_question(verb, words)),
        Verb::Hold => read_hold(words),
        Verb::Free => read_free(words),
        Verb::At => read_at(words),
        Verb::Quit => read_alone(words, Command::Quit),
    }
}

// A command of one word.
fn read_alone<'a>(words: Words<'a>, command: Command<'a>) -> Command<'a>
    ensures { result ≡ alone words.entry command.entry }
{
    if words.none() {
        command
    } else {
        Command::Unreadable
    }
}

fn change(edit: Option<EditLine<'_>>) -> Command<'_>
    ensures { result ≡ change_of edit.entry }
{
    match edit {
        Some(edit) => Command::Change(edit),
        None => Command::Unreadable,
    }
}

/// The command of a question; none is unreadable.
pub fn ask(question: Option<Question<'_>>) -> Command<'_>
    ensures { result ≡ ask_of question.entry }
{
    match question {
        Some(question) => Command::Ask(question),
        None => Command::Unreadable,
    }
}
