//! The word at fault of a commit that is refused.

ghost use Rattle.std.specs.Prelude.{◌≡◌, Err, IfOk, option_map};
ghost use Rattle.design.specs.Keys.{netlist};
ghost use Rattle.bench.specs.Commits.{commit_of};
ghost use Rattle.bench.specs.Refusals.{MayRefuse};
ghost use Rattle.session.specs.kept.Refused.{refusal_of};
ghost use Rattle.session.specs.WordsAtFault.{commit_word, word_at};
ghost use Rattle.session.specs.kept.WordsAtFault.{shown};

use crate::at_fault::edit_words::edit_word;
use crate::at_fault::fault_word::FaultWord;
use crate::replies::Refusal;
use bench::{CommitFault, Snapshot};
use design::Design;
use edits::{Edit, EditFault, apply_all};
use std::alloc::{AllocError, Global};

/// The word at fault of a commit to this snapshot that is refused for this. It takes memory where the refused edit is not the first.
pub fn commit_word<'e>(
    alloc: Global,
    snapshot: &Snapshot,
    edits: &'e [Edit],
    fault: CommitFault,
) -> Result<Option<FaultWord<'e>>, AllocError>
    requires { MayRefuse snapshot.now edits.now fault }
    ensures { IfOk result (λ word. option_map shown word ≡ commit_word snapshot.now edits.now (refusal_of fault)) }
{
    match fault {
        CommitFault::Edit(place, fault) => refused_word(alloc, snapshot, edits, place, fault),
        CommitFault::OutOfMemory | CommitFault::WorkerLost => Ok(None),
    }
}

#[tactic(auto, using(crate::proofs::FaultLemmas::named, crate::proofs::FaultLemmas::unnamed))]
fn refused_word<'e>(
    alloc: Global,
    snapshot: &Snapshot,
    edits: &'e [Edit],
    place: usize,
    fault: EditFault,
) -> Result<Option<FaultWord<'e>>, AllocError>
    requires { commit_of snapshot.now.version snapshot.now.design edits.now ≡ Err (place, fault) }
    ensures { IfOk result (λ word. option_map shown word ≡ commit_word snapshot.now edits.now (Refusal.Edit fault)) }
{
    if snapshot.version() == u64::MAX {
        return Ok(None);
    }
    match fault {
        EditFault::OutOfMemory => Ok(None),
        fault => word_at(alloc, snapshot.design(), edits, place, fault),
    }
}

// The word at fault of the edit at a place, by the design that the edits before it make.
fn word_at<'e>(
    alloc: Global,
    design: &Design,
    edits: &'e [Edit],
    place: usize,
    fault: EditFault,
) -> Result<Option<FaultWord<'e>>, AllocError>
    ensures { IfOk result (λ word. option_map shown word ≡ word_at (netlist design.now) edits.now place fault) }
{
    let Some(edit) = edits.get(place) else {
        return Ok(None);
    };
    if place == 0 {
        return Ok(edit_word(design, edit, fault));
    }
    match apply_all(alloc, design, &edits[..place]) {
        Ok(made) => Ok(edit_word(&made, edit, fault)),
        Err(_) => Err(AllocError),
    }
}
