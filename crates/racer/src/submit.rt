//! What an editor does in a race.

ghost use Rattle.std.specs.Prelude.{◌≡◌, ◌+◌, ◌<◌, ◌^◌, ◌∷◌, [], length};
ghost use Rattle.racer.specs.kept.Submits.{HasSubmitted};
ghost use Rattle.racer.specs.Tallies.{tally_of};

use crate::commit::Commit;
use crate::hand::Hand;
use crate::tally::Tally;
use gatestep::Serial;
use hub::{Editor, Hub, HubName};
use std::sync::Wait;
use std::sync::ledger::Ledger;

/// What an editor's thread leaves: the editor, and how many commits it submitted.
#[derive(Drop)]
pub struct Played<J: HubName, L: Ledger, M: Ledger> {
    pub editor: Editor<J, L, M>,
    pub tally: Tally,
}

/// An editor submits the commits of its hand.
pub fn play<J: HubName, L: Ledger, M: Ledger, R: Wait>(
    rt: &R,
    hub: &Hub<J, L, M, Serial, &R>,
    editor: Editor<J, L, M>,
    hand: Hand,
) -> Played<J, L, M>
    requires { editor.number ≡ hand.number }
    ensures submitted { HasSubmitted J.origin editor hand.commits result.editor }
    ensures number { result.editor.number ≡ hand.number }
    ensures counted { result.tally ≡ tally_of 0 0 0 (length hand.commits) }
{
    let mut editor = editor;
    let tally = submit_all(rt, hub, &mut editor, hand.commits());
    Played { editor, tally }
}

// An editor submits these commits, one after another. One that is refused is passed over.
#[tactic(auto, using(crate::proofs::SubmitLemmas::submitted_more))]
fn submit_all<J: HubName, L: Ledger, M: Ledger, R: Wait>(
    rt: &R,
    hub: &Hub<J, L, M, Serial, &R>,
    editor: &mut Editor<J, L, M>,
    commits: &[Commit],
) -> Tally
    ensures submitted { HasSubmitted J.origin editor.old commits.now editor.new }
    ensures number { editor.new.number ≡ editor.old.number }
    ensures counted { result ≡ tally_of 0 0 0 (length commits.now) }
{
    let mut tally = Tally::new();
    'commits: for commit in commits {
        submit(rt, hub, editor, commit, &mut tally);
    }
    tally
}

fn submit<J: HubName, L: Ledger, M: Ledger, R: Wait>(
    rt: &R,
    hub: &Hub<J, L, M, Serial, &R>,
    editor: &mut Editor<J, L, M>,
    commit: &Commit,
    tally: &mut Tally,
)
    requires { tally.old.submits + 1 < 2 ^ 64 }
    ensures submitted { HasSubmitted J.origin editor.old (commit.now ∷ []) editor.new }
    ensures number { editor.new.number ≡ editor.old.number }
    ensures counted { tally.new ≡ record tally.old { submits = tally.old.submits + 1 } }
{
    let receipt = hub.submit(rt, editor, commit.edits());
    tally.add_submit(receipt);
}
