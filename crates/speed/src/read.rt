//! Reads design texts, to be timed from outside: each word names a file, which is read as often as it is named. Each line of the
//! output says how many nets and gates the design has.

use anyhow::{Result, bail};
use design::NameHasher;
use programs::all_bytes_of;
use std::fs::File;
use std::random::RandomSource;
use std::rt::Files;
use vread::read;

/// Reads the text of each file that the words name.
pub fn run<R: Files + RandomSource + Print + AllocGlobal>(rt: &R, words: &[String]) -> Result<()> {
    for word in words {
        let text = all_bytes_of(rt.alloc(), File::open(rt, word.as_str()))?;
        let Ok(design) = read(rt.alloc(), NameHasher::new(rt), text.as_slice(), None) else {
            bail!("a text is refused");
        };
        println!(rt; "{} {}", design.net_count(), design.gate_count())?;
    }
    Ok(())
}
