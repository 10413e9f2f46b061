//! The edits of a batch.

ghost use Rattle.std.specs.Prelude.{◌≡◌, ◌++◌, ◌∷◌, [], true, if◌then◌else◌, IfErr, OnErr, OnOk};
ghost use Rattle.session.specs.EditLines.{edit_of};
ghost use Rattle.session.specs.Steps.{has_room};

use crate::commands::EditLine;
use crate::replies::Refusal;
use edits::{Edit, EditFault, MAX_EDITS};
use std::alloc::Global;
use std::marker::Model;

/// The edits that are kept for a commit, in order. They are not checked before it.
#[derive(Drop)]
pub struct Batch {
    edits: Vec<Edit>,
}

impl Model for Batch {
    ghost use Rattle.std.specs.Prelude.{List};
    ghost use Rattle.edits.specs.declared.edit.Edit.{Edit};

    ghost Value = { List Edit };

    ghost view = { λ b. b.edits.items };
}

impl Batch {
    /// No edits. It takes no memory.
    pub fn new(alloc: Global) -> Batch
        ensures { result ≡ [] }
    {
        Batch {
            edits: Vec::new(alloc),
        }
    }

    /// The edits.
    pub fn as_slice(&self) -> &[Edit]
        ensures { result.now ≡ self.now }
    {
        self.edits.as_slice()
    }

    /// Keeps the edit of a line too, if there is room.
    pub fn keep(&mut self, alloc: Global, edit: &EditLine<'_>) -> Result<(), Refusal>
        ensures kept { OnOk result (self.new ≡ self.old ++ edit_of edit.now ∷ []) }
        ensures room { OnOk result (has_room self.old ≡ true) }
        ensures unchanged { OnErr result (self.new ≡ self.old) }
        ensures refused { IfErr result (λ refusal. refusal ≡ Refusal.Edit (if has_room self.old then EditFault.OutOfMemory else EditFault.TooMany)) }
    {
        if self.edits.len() >= MAX_EDITS {
            return Err(Refusal::Edit(EditFault::TooMany));
        }
        let Ok(edit) = edit.to_edit(alloc) else {
            return Err(Refusal::Edit(EditFault::OutOfMemory));
        };
        match self.edits.push(edit) {
            Ok(()) => Ok(()),
            Err(_) => Err(Refusal::Edit(EditFault::OutOfMemory)),
        }
    }
}
