//! The words after a program's name, parted by `clap`.

ghost use Rattle.std.specs.Prelude.{◌≡◌, ℕ, List, IfErr, IfOk, false, true, map};
ghost use Rattle.clap.specs.Words.{HasKind, app_of, fault_of, first_value, found_of, is_simple, is_simple_and_free, rule_of};
ghost use Rattle.programs.specs.CommandLine.{is_taken, of_program, option_rule, positional_rule, value_of};

use crate::version::VERSION;
use clap::{Arg, ArgMatches, Command, Error};
use std::alloc::Global;
use std::convert::AsStr;

/// A word that is known by its place, with what messages call it.
pub fn positional<'a>(alloc: Global, name: &'a str, value: &'a str) -> Arg<'a>
    ensures rule { rule_of result ≡ positional_rule name.now }
    ensures own { result.global ≡ false }
{
    Arg::new(alloc, name).value_name(value)
}

/// The option of a name, with one value, which messages call so.
pub fn option_of<'a>(alloc: Global, name: &'a str, value: &'a str) -> Arg<'a>
    ensures rule { rule_of result ≡ option_rule name.now }
    ensures own { result.global ≡ false }
{
    Arg::new(alloc, name).long(name).value_name(value)
}

/// The form of a command line without words yet. The words come without the program's name, and may ask for the version.
pub fn program<'a>(alloc: Global, name: &'a str) -> Command<'a>
    ensures { app_of result ≡ of_program name.entry.now }
{
    Command::new(alloc, name)
        .no_binary_name(true)
        .version(VERSION)
}

/// The entries of the words, or the first fault that `clap` finds in them.
pub fn parse<'a, S: AsStr>(form: Command<'a>, words: &'a [S]) -> Result<ArgMatches<'a>, Error>
    requires simple { is_simple (app_of form) ≡ true }
    requires free { is_simple_and_free (app_of form) ≡ true }
    ensures ok { IfOk result (λ m. (is_taken (app_of form.entry) (map S.text words.entry.now) ≡ true)
        × ((name : List ℕ) → first_value (found_of m) name ≡ value_of (app_of form.entry) name (map S.text words.entry.now))) }
    ensures refused { IfErr result (HasKind (fault_of (app_of form.entry) (map S.text words.entry.now))) }
{
    form.try_get_matches_from(words)
}
