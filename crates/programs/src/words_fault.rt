//! What is wrong with words that do not have the form of the command line.

ghost use Rattle.std.specs.Prelude.{IfOk};
ghost use Rattle.std.specs.Io.{StartsWith};
ghost use Rattle.clap.specs.Words.{HasKind, Kinds};
ghost use Rattle.programs.specs.Words.{IsFaultAmong};

use clap::Error;
use clap::error::ErrorKind;
use std::alloc::{AllocError, Global};

/// What is wrong with words that do not have the form of the command line.
#[derive(Debug, Drop)]
pub enum WordsFault {
    /// Nothing is wrong: they ask for help.
    Help,
    /// Nothing is wrong: they ask for the version.
    Version,
    /// One of them is no text.
    NotText,
    /// They are not of the form. The lines are `clap`'s: they name the word at fault and what was wanted.
    Form(ErrorKind, String),
}

/// What is wrong with words that `clap` refuses by this error.
pub fn fault_of_form(alloc: Global, error: &Error) -> Result<WordsFault, AllocError>
    ensures { IfOk result (λ fault. (kinds : Kinds) → HasKind kinds error.now → IsFaultAmong kinds fault) }
{
    match error.kind() {
        ErrorKind::OutOfMemory => Err(AllocError),
        ErrorKind::DisplayHelp => Ok(WordsFault::Help),
        ErrorKind::DisplayVersion => Ok(WordsFault::Version),
        kind => {
            let text = format!(in alloc; "{error}")?;
            let lines = String::from_str(alloc, before_usage(text.as_str()))?;
            Ok(WordsFault::Form(kind, lines))
        }
    }
}

// A text of `clap` without the usage and the hint at its end.
fn before_usage(text: &str) -> &str
    ensures { StartsWith text.now result.now }
{
    let text = match text.rsplit_once("\n\nFor more information, ") {
        Some((before, _)) => before,
        None => text,
    };
    match text.rsplit_once("\n\nUsage: ") {
        Some((before, _)) => before,
        None => text,
    }
}
