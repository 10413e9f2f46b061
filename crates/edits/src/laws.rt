//! Laws of lists of edits: each function does nothing, and its contract is the law.

ghost use Rattle.std.specs.Prelude.{◌≡◌, ◌≢◌, ◌<◌, ◌≤◌, [], ◌∷◌, ◌++◌, ℕ, List, None, Some, Ok, Err, length, IfErr, IfOk, IfSome, MatchResult};
ghost use Rattle.design.specs.Keys.{Keyed};
ghost use Rattle.design.specs.Netlist.{Netlist};
ghost use Rattle.edits.specs.declared.edit.Edit as edits;
ghost use Rattle.edits.specs.Batches.{batch, batch_from};
ghost use Rattle.edits.specs.Checks.{cause};
ghost use Rattle.edits.specs.Edits.{edited};
ghost use Rattle.edits.specs.kept.Touched.{IsTouched};

use crate::fault::EditFault;
use crate::limits::MAX_EDITS;

/// No edits leave a design as it is.
pub fn no_edits()
    ensures { (d : Netlist) → batch d [] ≡ Ok d }
{}

/// A single edit is refused at place 0 for its cause, or carried out.
#[tactic(auto, using(crate::proofs::BatchLemmas::single_refused, crate::proofs::BatchLemmas::single_accepted))]
pub fn single_edit()
    ensures refused { (d : Netlist) (e : edits.Edit) → IfSome (cause d e) (λ fault. batch d (e ∷ []) ≡ Err (0, fault)) }
    ensures accepted { (d : Netlist) (e : edits.Edit) → cause d e ≡ None → batch d (e ∷ []) ≡ Ok (edited d e) }
{}

/// Edits behind others go on where these end; a refusal of the first ones is that of all.
#[tactic(auto, using(crate::proofs::BatchLemmas::joined_batches))]
pub fn joined_edits()
    ensures { (d : Netlist) (first rest : List edits.Edit) → MatchResult (batch d first)
        (λ new. batch d (first ++ rest) ≡ batch_from (length first) new rest)
        (λ refused. batch d (first ++ rest) ≡ Err refused) }
{}

/// A refused edit is one of the list, and within the limit or just past it; its cause is not that memory ran out. A list
/// that is accepted is within the limit.
#[tactic(auto, using(crate::proofs::BatchLemmas::refused_within, crate::proofs::BatchLemmas::refused_limit, crate::proofs::BatchLemmas::refused_for, crate::proofs::BatchLemmas::accepted_within))]
pub fn limits_of_edits()
    ensures place { (d : Netlist) (edits : List edits.Edit) → IfErr (batch d edits) (λ refused. refused.0 < length edits) }
    ensures limit { (d : Netlist) (edits : List edits.Edit) → IfErr (batch d edits) (λ refused. refused.0 ≤ MAX_EDITS) }
    ensures fault { (d : Netlist) (edits : List edits.Edit) → IfErr (batch d edits) (λ refused. refused.1 ≢ EditFault.OutOfMemory) }
    ensures accepted { (d : Netlist) (edits : List edits.Edit) → IfOk (batch d edits) (λ _. length edits ≤ MAX_EDITS) }
{}

/// Outside of no nets and no gates a design is itself. Outside of what two lists of edits touched one after the other, the
/// design after both is the first one.
#[tactic(auto, using(crate::proofs::TouchLemmas::nothing_touched, crate::proofs::TouchLemmas::touched_on))]
pub fn touched_keys_join()
    ensures none { (d : Keyed) → IsTouched d d [] [] }
    ensures joined { (a b c : Keyed) (nets gates more_nets more_gates : List ℕ) → IsTouched a b nets gates → IsTouched b c more_nets more_gates → IsTouched a c (nets ++ more_nets) (gates ++ more_gates) }
{}

/// The limit of a list of edits has this number.
pub fn limits()
    ensures { MAX_EDITS ≡ 4096 }
{}
