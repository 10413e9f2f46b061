//! The edits of a commit.

ghost use Rattle.std.specs.Prelude.{◌≡◌, ◌++◌, ◌∷◌, [], IfOk, OnOk};
ghost use Rattle.session.specs.Steps.{has_room};

use edits::{Edit, MAX_EDITS};
use std::alloc::{AllocError, Global};
use std::marker::Model;

/// The edits of a commit, in order. They are not checked.
#[derive(Drop)]
pub struct Commit {
    edits: Vec<Edit>,
}

impl Model for Commit {
    ghost use Rattle.std.specs.Prelude.{List};
    ghost use Rattle.edits.specs.declared.edit.Edit.{Edit};

    ghost Value = { List Edit };

    ghost view = { λ c. c.edits.items };
}

impl Commit {
    /// No edits. It takes no memory.
    pub fn new(alloc: Global) -> Commit
        ensures { result ≡ [] }
    {
        Commit {
            edits: Vec::new(alloc),
        }
    }

    /// One edit.
    pub fn of(alloc: Global, edit: Edit) -> Result<Commit, AllocError>
        ensures { IfOk result (λ commit. commit ≡ edit ∷ []) }
    {
        let mut edits = Vec::with_capacity(alloc, 1)?;
        edits.push(edit)?;
        Ok(Commit { edits })
    }

    /// Whether there are fewer edits than a commit may have.
    pub fn has_room(&self) -> bool
        ensures { result ≡ has_room self.now }
    {
        self.edits.len() < MAX_EDITS
    }

    /// One edit more.
    pub fn add(&mut self, edit: Edit) -> Result<(), AllocError>
        ensures { OnOk result (self.new ≡ self.old ++ edit ∷ []) }
    {
        self.edits.push(edit)?;
        Ok(())
    }

    /// The edits.
    pub fn edits(&self) -> &[Edit]
        ensures { result.now ≡ self.now }
    {
        self.edits.as_slice()
    }
}
