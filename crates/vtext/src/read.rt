//! The module list of a text, or its first fault.

ghost use Rattle.std.specs.Prelude.{◌≡◌, ◌<◌, ◌≤◌, ◌⊎◌, IfErr, IfOk, Err, List, length};
ghost use Rattle.lexing.specs.Lines.{line_of};
ghost use Rattle.lexing.specs.declared.limits.TheConstants.{MAX_TEXT};
ghost use Rattle.lexing.specs.declared.token.Token.{Token};
ghost use Rattle.vtext.specs.ReadFaults.{kind_of, out_of_memory, too_long};
ghost use Rattle.vtext.specs.Reads.{IsFirstFault, Says, start_of};
ghost use Rattle.vtext.specs.Words.{words_of};
ghost use Rattle.vtext.specs.kept.Words.{AreWithin};

use crate::cause::Cause;
use crate::fault::{ReadFault, kind_of};
use crate::module_list::Modules;
use crate::walks::{Refusal, walk};
use crate::word::Placed;
use crate::words::words;
use design::NameHasher;
use lexing::{MAX_TEXT, line};
use std::alloc::Global;

/// Where the word at a place begins; past the last one, the text's end.
fn start_of(text: &[u8], words: &[Placed], place: usize) -> usize
    requires { AreWithin text.now words.now }
    ensures value { (tokens : List Token) → words.now ≡ words_of text.now tokens → result ≡ start_of text.now tokens place }
    ensures within { result ≤ length text.now }
{
    match words.get(place) {
        Some(word) => word.start as usize,
        None => text.len(),
    }
}

fn fault_at(text: &[u8], words: &[Placed], place: usize, cause: Cause) -> ReadFault
    requires { AreWithin text.now words.now }
    ensures { (tokens : List Token) → words.now ≡ words_of text.now tokens → result ≡ record { line = line_of text.now (start_of text.now tokens place); kind = kind_of cause } }
{
    let start = start_of(text, words, place);
    ReadFault {
        line: line(text, start) as u64,
        kind: kind_of(cause),
    }
}

/// The modules of a structural Verilog text, or its first fault with its line: the first pass over a design text. `default`
/// is the delay, in time units, of gate items without one; the names of the text are hashed by `hasher`.
pub fn modules<'a>(
    alloc: Global,
    hasher: NameHasher,
    text: &'a [u8],
    default: Option<u32>,
) -> Result<Modules<'a>, ReadFault>
    // The modules are those that the text says.
    ensures list { IfOk result (Says default text.now) }
    // A fault is the first one of the text, or an allocation was refused.
    ensures fault { IfErr result (λ fault. (fault ≡ out_of_memory) ⊎ IsFirstFault default text.now fault) }
    // A text over its limit is looked at no further.
    ensures long { MAX_TEXT < length text.now → result ≡ Err too_long }
{
    if text.len() > MAX_TEXT {
        return Err(ReadFault::too_long());
    }
    let (names, words) = words(alloc, hasher, text)?;
    match walk(alloc, default, &names, words.as_slice()) {
        Ok(draft) => Ok(Modules::new(names, draft)),
        Err(Refusal::OutOfMemory) => Err(ReadFault::out_of_memory()),
        Err(Refusal::Fault(place, cause)) => { Err(fault_at(text, words.as_slice(), place, cause)) }
    }
}
