//! What the program is started with.

ghost use Rattle.std.specs.Prelude.{◌≡◌, Some, Err, IfErr, IfOk, drop, map, string_bytes};
ghost use Rattle.std.specs.Vec.Iter.{into_iter_items};
ghost use Rattle.std.specs.IoError.{error_kind};
ghost use Rattle.programs.specs.Words.{no_words_by};
ghost use Rattle.racer.specs.Arguments.{asked};
ghost use Rattle.racer.specs.Complaints.{StopsBy};
ghost use Rattle.racer.specs.kept.Complaints.{stop_by};

use crate::arguments::{Args, arguments};
use crate::complaint::{Complaint, StartFault};
use programs::{NoWords, WordsFault, words_after_name};
use std::alloc::Global;
use std::{env, io};

/// What the words of the command line ask for, the program's name first among them, or what is wrong with them. `words` is
/// what the system gave; a word that is no text is refused (own).
pub fn asked(alloc: Global, words: io::Result<env::Args>) -> Result<Args, StartFault>
    ensures ok { IfOk words (λ all. IfOk result (λ args. asked (map string_bytes (drop 1 (into_iter_items all)))
        ≡ Some (record { design = string_bytes args.design; script = string_bytes args.script; viewers = args.viewers; looks = args.looks }))) }
    ensures stopped { IfOk words (λ all. IfErr result (StopsBy (map string_bytes (drop 1 (into_iter_items all))))) }
    ensures unknown { IfErr words (λ error. result ≡ Err (stop_by (no_words_by (error_kind error)))) }
{
    match words_after_name(alloc, words) {
        Ok(words) => arguments(alloc, words.as_slice()),
        Err(why) => Err(stop_for(why)),
    }
}

fn stop_for(why: NoWords) -> StartFault
    ensures { result ≡ stop_by why }
{
    match why {
        NoWords::NotText => StartFault::Refused(Complaint::Words(WordsFault::NotText)),
        NoWords::OutOfMemory => StartFault::OutOfMemory,
    }
}
