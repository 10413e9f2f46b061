//! An accepted commit.

ghost use Rattle.std.specs.Prelude.{◌≡◌, IfOk};

use edits::Edit;
use std::alloc::{AllocError, Global};
use std::marker::Model;

/// An accepted commit: the number of its editor, 0 or 1, and its edits.
#[derive(Drop)]
pub struct Entry {
    pub editor: u32,
    pub edits: Vec<Edit>,
}

impl Model for Entry {
    ghost use Rattle.hubcore.specs.Lists.{EntryRecord, entry};

    ghost Value = { EntryRecord };

    ghost view = { λ e. entry e.editor e.edits.items };
}

// The same edits, once more.
pub(crate) fn copies_of(alloc: Global, edits: &[Edit]) -> Result<Vec<Edit>, AllocError>
    ensures { IfOk result (λ copies. copies.items ≡ edits.now) }
{
    let mut copies = Vec::with_capacity(alloc, edits.len())?;
    for edit in edits {
        copies.push(edit.try_clone()?)?;
    }
    Ok(copies)
}
