//! Laws of commits: each function does nothing, and its contract is the law.

ghost use Rattle.std.specs.Prelude.{◌≡◌, ◌≢◌, ◌+◌, ◌++◌, ◌-◌, ◌^◌, ℕ, List, [], ◌∷◌, length, Result, Ok, Err, IfErr};
ghost use Rattle.design.specs.Netlist.{Netlist};
ghost use Rattle.edits.specs.declared.edit.Edit as declared;
ghost use Rattle.edits.specs.Batches.{batch};
ghost use Rattle.bench.specs.Benches.{BenchRecord, IsPast, SnapshotRecord};
ghost use Rattle.bench.specs.Commits.{after, commit_of, committed};
ghost use Rattle.bench.specs.Histories.{LeadOn, Leads, accepted};
ghost use Rattle.bench.specs.declared.fault.CommitFault.{CommitFault};

use edits::EditFault;
use edits::laws::limits_of_edits;

/// No commits leave a design as it is.
pub fn no_commits()
    ensures { (d : Netlist) → after d [] ≡ d }
{}

/// The design after one commit more is that commit on the design before it.
pub fn one_commit_more()
    ensures step { (d : Netlist) (log : List (List declared.Edit)) (edits : List declared.Edit)
        → after d (log ++ edits ∷ []) ≡ committed (after d log) edits }
    ensures accepted { (d new : Netlist) (log : List (List declared.Edit)) (edits : List declared.Edit) (version : ℕ)
        → commit_of version (after d log) edits ≡ Ok new → after d (log ++ edits ∷ []) ≡ new }
{}

/// After any commits, accepted and refused for whatever cause, the design is what the accepted ones make of the first one, and the
/// version has grown by their number; a commit more goes on from there.
#[tactic(auto, using(crate::proofs::HistoryLemmas::design_after, crate::proofs::HistoryLemmas::version_after, crate::proofs::HistoryLemmas::one_more))]
pub fn any_commits()
    ensures design { (first last : SnapshotRecord) (commits : List (List declared.Edit × Result ℕ CommitFault))
        → LeadOn first commits last → last.design ≡ after first.design (accepted commits) }
    ensures version { (first last : SnapshotRecord) (commits : List (List declared.Edit × Result ℕ CommitFault))
        → LeadOn first commits last → last.version ≡ first.version + length (accepted commits) }
    ensures more { (first now last : SnapshotRecord) (commits : List (List declared.Edit × Result ℕ CommitFault))
        (edits : List declared.Edit) (answer : Result ℕ CommitFault)
        → LeadOn first commits now → Leads now edits answer last → LeadOn first (commits ++ (edits, answer) ∷ []) last }
{}

/// At the greatest version each commit is refused at its first place as one too many.
pub fn last_version()
    ensures { (d : Netlist) (edits : List declared.Edit) → commit_of (2 ^ 64 - 1) d edits ≡ Err (0, EditFault.TooMany) }
{}

/// The fault of a refused commit is never that memory ran out.
pub fn faults_of_commits()
    ensures { (version : ℕ) (d : Netlist) (edits : List declared.Edit)
        → IfErr (commit_of version d edits) (λ refused. refused.1 ≢ EditFault.OutOfMemory) }
{
    limits_of_edits();
}

/// The present snapshot of a bench is one from its past; `Bench::commit` keeps those that there are.
pub fn present_is_past()
    ensures { (bench : BenchRecord) → IsPast bench bench.snapshot }
{}
