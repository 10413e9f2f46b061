//! The bytes of a file.

ghost use Rattle.std.specs.Prelude.{◌≡◌, ◌+◌, ◌<◌, ◌≤◌, Err, IfErr, IfOk, IfSome, Ok, length, take};
ghost use Rattle.std.specs.Io.KnownBytes.{Consumes};
ghost use Rattle.std.specs.IoError.{error_kind};
ghost use Rattle.programs.specs.Files.{breakdown_by};
ghost use Rattle.programs.specs.kept.Files.{TakesIn};

use crate::fault_lines::Breakdown;
use std::alloc::Global;
use std::io;
use std::io::Read;

// How many bytes are read at once.
const BLOCK: usize = 4096;

/// The first bytes of a file, as many as there are but no more than `most`, by what the opening of it gave.
pub fn first_bytes_of<R: Read + Drop>(
    alloc: Global,
    file: io::Result<R>,
    most: usize,
) -> io::Result<Vec<u8>>
    ensures opened { IfOk file (λ reader. IfOk result (λ text. IfSome (R.remaining reader) (λ bytes. text.items ≡ take most bytes))) }
    ensures most { IfOk result (λ text. length text.items ≤ most) }
    ensures unopened { IfErr file (λ error. result ≡ Err error) }
{
    first_bytes(alloc, &mut file?, most)
}

/// All bytes of a file, by what the opening of it gave.
pub fn all_bytes_of<R: Read + Drop>(alloc: Global, file: io::Result<R>) -> io::Result<Vec<u8>>
    ensures opened { IfOk file (λ reader. IfOk result (λ text. IfSome (R.remaining reader) (λ bytes. text.items ≡ bytes))) }
    ensures unopened { IfErr file (λ error. result ≡ Err error) }
{
    let text = first_bytes_of(alloc, file, usize::MAX)?;
    Ok(text)
}

// The next bytes of a reader, no more than `most`. What follows them stays in the reader.
fn first_bytes<R: Read>(alloc: Global, reader: &mut R, most: usize) -> io::Result<Vec<u8>>
    ensures first { IfOk result (λ text. IfSome (R.remaining reader.old) (λ bytes. text.items ≡ take most bytes)) }
    ensures rest { IfOk result (λ text. Consumes (R.remaining reader.old) (R.remaining reader.new) text.items) }
    ensures most { IfOk result (λ text. length text.items ≤ most) }
{
    let mut text = Vec::new(alloc);
    'blocks: while text.len() < most {
        let room = most - text.len();
        let count = take_in(reader, &mut text, room)?;
        if count == 0 {
            return Ok(text);
        }
    }
    Ok(text)
}

// Adds the next bytes of a reader to the text, at most so many, and answers how many came.
fn take_in<R: Read>(reader: &mut R, text: &mut Vec<u8>, most: usize) -> io::Result<usize>
    requires { 0 < most }
    ensures bound { IfOk result (λ n. n ≤ most) }
    ensures taken { IfOk result (TakesIn (R.remaining reader.old) (R.remaining reader.new) text.old.items text.new.items) }
{
    let mut block = [0; BLOCK];
    let room = most.min(BLOCK);
    let n = reader.read(&mut block[..room])?;
    text.extend_from_slice(&block[..n])?;
    Ok(n)
}

/// The text of a file, by what the reading of it gave, or why the program can't go on.
pub fn text_of(file: io::Result<Vec<u8>>) -> Result<Vec<u8>, Breakdown>
    ensures read { IfOk file (λ bytes. result ≡ Ok bytes) }
    ensures unread { IfErr file (λ error. result ≡ Err (breakdown_by (error_kind error))) }
{
    match file {
        Ok(text) => Ok(text),
        Err(error) => Err(breakdown_of(&error)),
    }
}

/// Why the program can't go on without a file that can't be read.
pub fn breakdown_of(error: &io::Error) -> Breakdown
    ensures { result ≡ breakdown_by (error_kind error.now) }
{
    match error.kind() {
        io::ErrorKind::OutOfMemory => Breakdown::OutOfMemory,
        _ => Breakdown::Read,
    }
}
