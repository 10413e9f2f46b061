//! Laws of events: each function does nothing, and its contract is the law.

ghost use Rattle.std.specs.Prelude.{◌≡◌, ◌≢◌, ◌≤◌, ◌+◌, ◌++◌, ◌∷◌, [], ℕ, IfOk, List, Some, length, slice_get};
ghost use Rattle.std.specs.Result.{IsOkAnd};
ghost use Rattle.edits.specs.declared.edit.Edit as edit;
ghost use Rattle.bench.specs.Benches.{SnapshotRecord, snapshot_of};
ghost use Rattle.bench.specs.Commits.{after};
ghost use Rattle.hubcore.specs.declared.event.Event as declared;
ghost use Rattle.hubcore.specs.declared.event.Event.TheVariants.{Look};
ghost use Rattle.hubcore.specs.Lists.{EntryRecord, StartsWith, commits_of, entry, lists_of, longer};
ghost use Rattle.hubcore.specs.kept.Lists.{Known, Stands, known_after};
ghost use Rattle.hubcore.specs.kept.Snapshots.{Accepts, AreLegal, snapshot_at};
ghost use Rattle.hubcore.specs.States.{CoreRecord, ViewerRecord, opened};
ghost use Rattle.hubcore.specs.kept.States.{Follows, IsSound};
ghost use Rattle.hubcore.specs.Steps.{step};
ghost use Rattle.hubcore.specs.kept.Steps.{GivesAtLeast, state_after};

/// After any events only accepted commits are shown, and viewers saw, were told of and hold nothing else than what is shown.
#[tactic(auto, using(crate::proofs::Sound::states_sound, crate::proofs::Sound::after_sound))]
pub fn states_are_sound()
    ensures opened { (viewers : ℕ) (events : List declared.Event) → IsSound (state_after (opened viewers) events) }
    ensures later { (s : CoreRecord) (events : List declared.Event) → IsSound s → IsSound (state_after s events) }
{}

/// Events take nothing out of the log, nor of what is shown of it, and viewers stay.
pub fn states_grow()
    ensures { (s : CoreRecord) (events : List declared.Event) → IsSound s → Follows s (state_after s events) }
{}

/// A look gives no less than the viewer saw or was told of, whatever happened since.
#[tactic(auto, using(crate::proofs::Growing::looks_on))]
pub fn looks_never_go_back()
    ensures { (s : CoreRecord) (events : List declared.Event) (number : ℕ) (viewer : ViewerRecord) → IsSound s
        → slice_get s.viewers number ≡ Some viewer
        → IsOkAnd (step (state_after s events) (Look number)) (λ done. GivesAtLeast viewer.seen done.1) }
{}

/// A snapshot that is shown, as those that viewers hold are, stays the same whatever happens.
#[tactic(auto, using(crate::proofs::Growing::snapshot_stays))]
pub fn snapshots_stay()
    ensures { (from : SnapshotRecord) (s : CoreRecord) (events : List declared.Event) (count : ℕ)
        → IsSound s → count ≤ s.shown
        → snapshot_at from (state_after s events).log count ≡ snapshot_at from s.log count }
{}

/// Where each commit is answered as the design that it finds demands, the log is one of accepted commits; so a snapshot of a length
/// that is shown is the one that as many commits make.
#[tactic(auto, using(crate::proofs::Growing::opened_accepts))]
pub fn logs_are_accepted()
    ensures { (from : SnapshotRecord) (viewers : ℕ) (events : List declared.Event)
        → AreLegal from (opened viewers) events
        → Accepts from (state_after (opened viewers) events).log }
{}

/// An event makes of lists of commits what it makes of their lengths: each list stays a beginning of the log, and a viewer's of what
/// is shown.
pub fn lists_go_on()
    ensures { (k : Known) (s : CoreRecord) (editor : ℕ) (event : declared.Event) → Stands k s
        → IfOk (step s event) (λ done. Stands (known_after k editor event) done.0) }
{}

/// The longer of two beginnings of one list begins with both, and is a beginning itself.
#[tactic(auto, using(crate::proofs::Beginnings::longer_begins))]
pub fn longer_beginnings()
    ensures both { (all one other : List EntryRecord) → StartsWith all one → StartsWith all other
        → StartsWith (longer one other) one × StartsWith (longer one other) other }
    ensures begins { (all one other : List EntryRecord) → StartsWith all one → StartsWith all other
        → StartsWith all (longer one other) }
{}

/// The snapshot that is shown is the one that the commits make which are shown.
#[tactic(auto, using(crate::proofs::ListSteps::shown_snapshot))]
pub fn shown_snapshots()
    ensures { (from : SnapshotRecord) (k : Known) (s : CoreRecord) → Stands k s
        → snapshot_at from s.log s.shown ≡ snapshot_of (from.version + length k.shown) (after from.design (lists_of k.shown)) }
{}

/// The commits of an editor stand in the order in which they were accepted, whatever others commit.
#[tactic(auto, using(crate::proofs::ListSteps::commits_own, crate::proofs::ListSteps::commits_other))]
pub fn commits_in_order()
    ensures own { (log : List EntryRecord) (editor : ℕ) (edits : List edit.Edit)
        → commits_of editor (log ++ entry editor edits ∷ []) ≡ commits_of editor log ++ entry editor edits ∷ [] }
    ensures other { (log : List EntryRecord) (editor other : ℕ) (edits : List edit.Edit) → other ≢ editor
        → commits_of other (log ++ entry editor edits ∷ []) ≡ commits_of other log }
{}
