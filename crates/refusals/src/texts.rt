//! Designs and edits.

use crate::report::{Report, Stop, TRIES};
use design::{Design, NameHasher};
use edits::{Edit, EditFault, Word, apply_all};
use fourstate::{DelayTimes, Value};
use std::alloc::{AllocError, Global};
use vread::{ReadFault, read};

/// The last moment of the runs.
const HORIZON: u64 = 100;

/// What is done to the net or the gate of a name.
#[derive(Clone, Copy)]
pub enum Change {
    /// The input gets this value at this time.
    Point(u64, Value),
    /// The gate gets these delays.
    Delay(u64),
    /// An input of the name is added.
    Input,
}

/// A change of what has this name.
pub type Named = (&'static str, Change);

/// The design that a text spells, with the horizon of all runs.
pub fn design_of(alloc: Global, report: &Report<impl Eprint>, text: &[u8]) -> Result<Design, Stop> {
    for _ in 0..TRIES {
        match read(alloc, NameHasher::fixed(), text, None) {
            Ok(design) => return Ok(design.set_horizon(HORIZON)),
            Err(fault) => {
                if fault != ReadFault::out_of_memory() {
                    return Err(Stop::Wrong("read"));
                }
                report.refused("read");
            }
        }
    }
    Err(Stop::Refused)
}

fn edit_of(alloc: Global, named: Named) -> Result<Edit, AllocError> {
    let name = Word::new(alloc, named.0)?;
    Ok(match named.1 {
        Change::Point(time, value) => Edit::Stim {
            net: name,
            time,
            value,
        },
        Change::Delay(delay) => Edit::SetDelay {
            name,
            delays: DelayTimes::uniform(delay),
        },
        Change::Input => Edit::AddInput { name },
    })
}

fn all_edits_of(alloc: Global, changes: &[Named]) -> Result<Vec<Edit>, AllocError> {
    let mut edits = Vec::with_capacity(alloc, changes.len())?;
    for named in changes {
        edits.push(edit_of(alloc, *named)?)?;
    }
    Ok(edits)
}

/// The edits that make these changes.
pub fn edits_of(
    alloc: Global,
    report: &Report<impl Eprint>,
    changes: &[Named],
) -> Result<Vec<Edit>, Stop> {
    for _ in 0..TRIES {
        match all_edits_of(alloc, changes) {
            Ok(edits) => return Ok(edits),
            Err(_) => report.refused("edits"),
        }
    }
    Err(Stop::Refused)
}

/// The design after these edits.
pub fn design_after(
    alloc: Global,
    report: &Report<impl Eprint>,
    design: &Design,
    edits: &[Edit],
) -> Result<Design, Stop> {
    for _ in 0..TRIES {
        match apply_all(alloc, design, edits) {
            Ok(design) => return Ok(design),
            Err((_, EditFault::OutOfMemory)) => report.refused("apply_all"),
            Err(_) => return Err(Stop::Wrong("apply_all")),
        }
    }
    Err(Stop::Refused)
}
