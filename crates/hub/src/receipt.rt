//! What an editor gets for a commit.

use crate::name::HubName;
use crate::note::Note;
use bench::CommitFault;
use std::marker::Model;

/// The reply to a commit, and whether all accepted commits are published then. It tells a viewer that learns it what was published.
#[derive(Drop)]
pub struct Receipt<J: HubName> {
    /// The new version, or why the commit was refused.
    pub reply: Result<u64, CommitFault>,
    /// Whether viewers can see all accepted commits, this one and earlier ones. If not, memory ran out; a later submit publishes
    /// them.
    pub shown: bool,
    pub(crate) note: Note<J>,
}

impl<J: HubName> Model for Receipt<J> {
    ghost use Rattle.hub.specs.Desks.{ReceiptRecord};

    ghost Value = { ReceiptRecord };

    ghost view = { λ r. record { reply = r.reply; shown = r.shown; told = r.note } };
}
