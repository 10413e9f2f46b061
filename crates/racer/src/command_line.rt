//! The words after the program's name, parted by `clap`.

ghost use Rattle.std.specs.Prelude.{◌≡◌, ℕ, List, IfErr, IfOk, true, map};
ghost use Rattle.clap.specs.Words.{HasKind, app_of, fault_of, first_value, found_of};
ghost use Rattle.racer.specs.CommandLine.{command_line, is_taken, value_of};

use clap::{ArgMatches, Command, Error};
use programs::{positional, program};
use std::alloc::{AllocError, Global};
use std::convert::AsStr;

// The form of the command line.
fn form<'a>(alloc: Global) -> Result<Command<'a>, AllocError>
    ensures { IfOk result (λ c. app_of c ≡ command_line) }
{
    let design = positional(alloc, "design", "DESIGN");
    let script = positional(alloc, "script", "SCRIPT");
    let viewers = positional(alloc, "viewers", "VIEWERS");
    let looks = positional(alloc, "looks", "LOOKS");
    program(alloc, "gaterace")
        .arg(design)?
        .arg(script)?
        .arg(viewers)?
        .arg(looks)
}

/// The entries of the words, or the first fault that `clap` finds in them.
pub fn parse<'a, S: AsStr>(alloc: Global, words: &'a [S]) -> Result<ArgMatches<'a>, Error>
    ensures ok { IfOk result (λ m. (is_taken (map S.text words.entry.now) ≡ true)
        × ((name : List ℕ) → first_value (found_of m) name ≡ value_of name (map S.text words.entry.now))) }
    ensures refused { IfErr result (HasKind (fault_of command_line (map S.text words.entry.now))) }
{
    programs::parse(form(alloc)?, words)
}
