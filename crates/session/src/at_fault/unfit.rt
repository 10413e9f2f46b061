//! The word at fault of a line that can't be read.

ghost use Rattle.std.specs.Prelude.{◌≡◌, option_map};
ghost use Rattle.std.specs.Option.{option_copied};
ghost use Rattle.session.specs.Forms.{asked_kinds_of, if_plain, kinds_of, no_first_word, unfit_among, unfit_behind, unfit_in_at, unfit_in_line, unfit_in_question, tool_kinds, unreadable_word};
ghost use Rattle.session.specs.ToolVerbs.{tool_verb_of};

use crate::at_fault::forms::{WordKind, question_kinds, tool_kinds, verb_kinds};
use crate::commands::{ToolVerb, Verb};
use crate::words::{RawWords, are_plain};

/// The first word with which no line can go on as the words before it began; none where a word is missing, and none
/// where that word is one that no reply may show. The questions of tools are known.
pub fn unreadable_word<'a>(words: RawWords<'a>) -> Option<&'a [u8]>
    ensures { option_copied result ≡ unreadable_word words.entry }
{
    let word = unfit_in_line(words)?;
    if are_plain(word) { Some(word) } else { None }
}

fn unfit_in_line<'a>(words: RawWords<'a>) -> Option<&'a [u8]>
    ensures { option_copied result ≡ unfit_in_line words.entry }
{
    let mut rest = words;
    let first = rest.next()?;
    if b"at".as_slice() == first {
        unfit_in_at(rest)
    } else {
        unfit_behind(first, rest, kinds_of(first))
    }
}

// Behind the first word of `at K LINE`.
fn unfit_in_at<'a>(words: RawWords<'a>) -> Option<&'a [u8]>
    ensures { option_copied result ≡ unfit_in_at words.entry }
{
    let mut rest = words;
    let name = rest.next()?;
    if are_plain(name) {
        unfit_in_question(rest)
    } else {
        Some(name)
    }
}

fn unfit_in_question<'a>(words: RawWords<'a>) -> Option<&'a [u8]>
    ensures { option_copied result ≡ unfit_in_question words.entry }
{
    let mut rest = words;
    let first = rest.next()?;
    unfit_behind(first, rest, asked_kinds_of(first))
}

// Behind a first word, where the words behind it are to have these kinds; with none it begins no line.
fn unfit_behind<'a>(
    first: &'a [u8],
    words: RawWords<'a>,
    kinds: Option<&'static [WordKind]>,
) -> Option<&'a [u8]>
    ensures { option_copied result ≡ unfit_behind first.now words.entry (option_copied kinds.entry) }
{
    match kinds {
        Some(kinds) => unfit_among(words, kinds),
        None => no_first_word(first),
    }
}

fn no_first_word(word: &[u8]) -> Option<&[u8]>
    ensures { option_copied result ≡ no_first_word word.now }
{
    if b"fault".as_slice() == word {
        None
    } else {
        Some(word)
    }
}

fn unfit_among<'a>(words: RawWords<'a>, kinds: &[WordKind]) -> Option<&'a [u8]>
    ensures { option_copied result ≡ unfit_among words.entry kinds.now }
{
    let mut rest = words;
    let mut kinds = kinds;
    while let Some(word) = rest.next() {
        let Some((kind, behind)) = kinds.split_first() else {
            return Some(word);
        };
        if !kind.fits(word) {
            return Some(word);
        }
        if *kind != WordKind::Input {
            kinds = behind;
        }
    }
    None
}

fn kinds_of(first: &[u8]) -> Option<&'static [WordKind]>
    ensures { option_copied result ≡ kinds_of first.now }
{
    match Verb::from_keyword(first) {
        Some(verb) => Some(verb_kinds(verb)),
        None => kinds_by_tool(first),
    }
}

fn asked_kinds_of(first: &[u8]) -> Option<&'static [WordKind]>
    ensures { option_copied result ≡ asked_kinds_of first.now }
{
    let asked = match Verb::from_keyword(first) {
        Some(verb) => question_kinds(verb),
        None => None,
    };
    match asked {
        Some(kinds) => Some(kinds),
        None => kinds_by_tool(first),
    }
}

fn kinds_by_tool(first: &[u8]) -> Option<&'static [WordKind]>
    ensures { option_copied result ≡ option_map tool_kinds (tool_verb_of first.now) }
{
    let verb = ToolVerb::from_keyword(first)?;
    Some(tool_kinds(verb))
}
