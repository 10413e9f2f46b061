//! Designs made by edits.

use anyhow::{Result, bail};
use design::{Design, Name, NameHasher};
use edits::{Edit, MAX_EDITS, Word, apply_all};
use fourstate::TimeUnit;
use std::alloc::Global;

/// The name of a letter and a number.
pub fn name_of(alloc: Global, letter: &str, number: usize) -> Result<Word> {
    let text = format!(in alloc; "{letter}{number}")?;
    Ok(Word::new(alloc, text.as_str())?)
}

/// The design that edits build from an empty one.
pub fn built(alloc: Global, edits: &[Edit]) -> Result<Design> {
    let design = empty(alloc)?;
    built_on(alloc, &design, edits)
}

/// The design that edits make of another, as many at a time as a list may have.
pub fn built_on(alloc: Global, design: &Design, edits: &[Edit]) -> Result<Design> {
    let mut design = design.try_clone()?;
    for part in edits.chunks(MAX_EDITS) {
        design = applied(alloc, &design, part)?;
    }
    Ok(design)
}

fn empty(alloc: Global) -> Result<Design> {
    let top = Name::new(alloc, "circuit")?;
    let hasher = NameHasher::fixed();
    Ok(Design::empty(alloc, hasher, top, TimeUnit::default()))
}

/// The design after edits that it accepts.
pub fn applied(alloc: Global, design: &Design, edits: &[Edit]) -> Result<Design> {
    match apply_all(alloc, design, edits) {
        Ok(new) => Ok(new),
        Err(_) => bail!("an edit is refused"),
    }
}
