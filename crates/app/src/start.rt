//! What the program is started with.

ghost use Rattle.std.specs.Prelude.{◌≡◌, None, Some, Ok, Err, IfErr, IfOk, drop, map, string_bytes};
ghost use Rattle.std.specs.Vec.Iter.{into_iter_items};
ghost use Rattle.std.specs.IoError.{error_kind};
ghost use Rattle.app.specs.Arguments.{asked};
ghost use Rattle.app.specs.kept.Complaints.{StopsBy};
ghost use Rattle.app.specs.kept.Programs.{program_by, program_of};
ghost use Rattle.app.specs.Start.{unread_by, unread_fault};
ghost use Rattle.app.specs.kept.Start.{no_words_fault, stop_by};

use crate::arguments::{Args, ArgsFault, options};
use crate::cause::complaint_of;
use crate::complaint::{Complaint, StartFault};
use crate::program::Program;
use programs::{Breakdown, NoWords, WordsFault, breakdown_of, words_after_name};
use session::SessionFault;
use std::alloc::Global;
use std::convert::AsStr;
use std::{env, io};

/// What the words of the command line ask for, the program's name first among them, or what is wrong with them. `words` is
/// what the system gave; a word that is no text is refused (own).
pub fn asked(alloc: Global, words: io::Result<env::Args>) -> Result<Args, StartFault>
    ensures ok { IfOk words (λ all. IfOk result (λ args. asked (map string_bytes (drop 1 (into_iter_items all)))
        ≡ Some (record { design = string_bytes args.design; horizon = args.horizon; workers = args.workers; delay = args.delay }))) }
    ensures stopped { IfOk words (λ all. IfErr result (StopsBy (map string_bytes (drop 1 (into_iter_items all))))) }
    ensures unknown { IfErr words (λ error. result ≡ Err (no_words_fault (error_kind error))) }
{
    match words_after_name(alloc, words) {
        Ok(words) => asked_by(alloc, words.as_slice()),
        Err(why) => Err(stop_for(why)),
    }
}

/// The program of the command line, whose first word is the program's name. `words` is what the system gave.
pub fn program_of(words: io::Result<env::Args>) -> Program
    ensures { IfOk words (λ all. result ≡ program_of (map string_bytes (into_iter_items all))) }
{
    match words {
        Ok(words) => first_of(words),
        Err(_) => Program::Gatebench,
    }
}

fn first_of(words: env::Args) -> Program
    ensures { result ≡ program_of (map string_bytes (into_iter_items words)) }
{
    let mut words = words;
    match words.next() {
        Some(word) => Program::of(word.as_str()),
        None => Program::Gatebench,
    }
}

fn asked_by<S: AsStr>(alloc: Global, words: &[S]) -> Result<Args, StartFault>
    ensures ok { IfOk result (λ args. asked (map S.text words.now)
        ≡ Some (record { design = string_bytes args.design; horizon = args.horizon; workers = args.workers; delay = args.delay })) }
    ensures stopped { IfErr result (StopsBy (map S.text words.now)) }
{
    match options(alloc, words) {
        Ok(args) => Ok(args),
        Err(ArgsFault::Refused) => Err(StartFault::Refused(complaint_of(alloc, words)?)),
        Err(ArgsFault::OutOfMemory) => Err(StartFault::OutOfMemory),
    }
}

fn stop_for(why: NoWords) -> StartFault
    ensures { result ≡ stop_by why }
{
    match why {
        NoWords::NotText => StartFault::Refused(Complaint::Words(WordsFault::NotText)),
        NoWords::OutOfMemory => StartFault::OutOfMemory,
    }
}

/// The bytes of the design text, by what the reading of its file gave; none where it can't be read.
pub fn design_text(file: &io::Result<Vec<u8>>) -> &[u8]
    ensures { IfOk file.now (λ bytes. result.now ≡ bytes.items) }
{
    match file {
        Ok(text) => text.as_slice(),
        Err(_) => &[],
    }
}

/// Why there is no session where the design text can't be read.
pub fn unread(error: &io::Error) -> SessionFault
    ensures { result ≡ unread_fault (error_kind error.now) }
{
    unread_by(breakdown_of(error))
}

fn unread_by(breakdown: Breakdown) -> SessionFault
    ensures { result ≡ unread_by breakdown }
{
    match breakdown {
        Breakdown::OutOfMemory => SessionFault::OutOfMemory,
        Breakdown::Read => SessionFault::Read,
        Breakdown::Write => SessionFault::Write,
    }
}
