//! The words that a program is started with.

ghost use Rattle.std.specs.Prelude.{◌≡◌, Err, IfErr, IfOk, drop};
ghost use Rattle.std.specs.Vec.Iter.{into_iter_items};
ghost use Rattle.std.specs.IoError.{error_kind};
ghost use Rattle.programs.specs.Words.{no_words_by};

use std::alloc::{AllocError, Global};
use std::{env, io};

/// Why there are no words.
#[derive(Clone, Copy, Debug, PartialEq, Eq)]
pub enum NoWords {
    /// One of them is no text (own).
    NotText,
    /// An allocation was refused.
    OutOfMemory,
}

/// The words after the program's name. `words` is what the system gave, with the name first.
pub fn words_after_name(alloc: Global, words: io::Result<env::Args>) -> Result<Vec<String>, NoWords>
    ensures ok { IfOk words (λ all. IfOk result (λ rest. rest.items ≡ drop 1 (into_iter_items all))) }
    ensures memory { IfOk words (λ all. IfErr result (λ why. why ≡ NoWords.OutOfMemory)) }
    ensures unknown { IfErr words (λ error. result ≡ Err (no_words_by (error_kind error))) }
{
    match words {
        Ok(words) => match without_first(alloc, words) {
            Ok(rest) => Ok(rest),
            Err(_) => Err(NoWords::OutOfMemory),
        },
        Err(error) => Err(no_words(&error)),
    }
}

fn without_first(alloc: Global, words: env::Args) -> Result<Vec<String>, AllocError>
    ensures { IfOk result (λ rest. rest.items ≡ drop 1 (into_iter_items words)) }
{
    words.skip(1).collect(alloc)
}

fn no_words(error: &io::Error) -> NoWords
    ensures { result ≡ no_words_by (error_kind error.now) }
{
    match error.kind() {
        io::ErrorKind::OutOfMemory => NoWords::OutOfMemory,
        _ => NoWords::NotText,
    }
}
