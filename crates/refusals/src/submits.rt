//! Submits to a hub, and looks at it.

ghost use Rattle.std.specs.Prelude.{◌≡◌};

use crate::report::{Report, Stop, TRIES};
use bench::{CommitFault, Snapshot};
use edits::{Edit, EditFault};
use gatestep::Stepper;
use hub::{Editor, Hub, HubName, Receipt, Viewer};
use std::sync::ledger::Ledger;
use std::sync::{Arc, Wait};

const AGAIN: CommitFault = CommitFault::Edit(0, EditFault::DuplicateName);

/// A viewer looks, which takes no memory.
pub fn look<J: HubName>(viewer: &mut Viewer<J>) -> Result<Arc<Snapshot>, Stop> {
    match viewer.look() {
        Ok(snapshot) => Ok(snapshot),
        Err(_) => Err(Stop::Wrong("look")),
    }
}

// The version that a viewer sees.
fn version_of<J: HubName>(viewer: &mut Viewer<J>) -> Result<u64, Stop> {
    let seen = look(viewer)?;
    Ok(seen.version())
}

/// The first commit to a hub, of edits that no design takes twice, and its receipt once it is shown. A viewer sees the design from
/// before while it is refused for memory, and while it is not shown.
pub fn submit<J: HubName, L: Ledger, M: Ledger, S: Stepper + Drop, R: Wait + Eprint + Drop>(
    rt: &R,
    report: &Report<R>,
    hub: &Hub<J, L, M, S, R>,
    editor: &mut Editor<J, L, M>,
    viewer: &mut Viewer<J>,
    edits: &[Edit],
) -> Result<Receipt<J>, Stop>
    ensures { editor.new.number ≡ editor.old.number }
{
    'tries: for _ in 0..TRIES {
        let receipt = hub.submit(rt, editor, edits);
        let count = editor.count();
        if version_of(viewer)? != (if receipt.shown { count } else { 0 }) {
            return Err(Stop::Wrong("submit"));
        }
        match (receipt.reply, count) {
            (Ok(1), 1) | (Err(AGAIN), 1) => {
                if receipt.shown {
                    return Ok(receipt);
                }
                report.refused("submit, to show");
            }
            (Err(CommitFault::OutOfMemory), _) => report.refused("submit"),
            _ => return Err(Stop::Wrong("submit")),
        }
    }
    Err(Stop::Refused)
}
