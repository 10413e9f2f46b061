//! What stands once a hub has ended.

ghost use Rattle.std.specs.Prelude.{◌≡◌, length, max};
ghost use Rattle.hubcore.specs.Lists.{StartsWith};
ghost use Rattle.racer.specs.kept.Looks.{IsAccount};

use gatestep::Serial;
use hub::{Editor, Hub, HubName, Log, Viewer};
use std::marker::Model;
use std::sync::Wait;
use std::sync::ledger::Ledger;

/// The log of a hub that has ended, and of how many commits its editors were told, the one that was told of more.
#[derive(Drop)]
pub struct Settled<J: HubName> {
    log: Log<J>,
    told: u64,
}

impl<J: HubName> Model for Settled<J> {
    ghost use Rattle.racer.specs.kept.Looks.{SettledRecord};

    ghost Value = { SettledRecord };

    ghost view = { λ s. record { log = s.log; told = s.told } };
}

impl<J: HubName> Settled<J> {
    /// Ends the hub of these editors.
    pub fn close<L: Ledger, M: Ledger, R: Wait + Drop>(
        hub: Hub<J, L, M, Serial, R>,
        editors: (Editor<J, L, M>, Editor<J, L, M>),
    ) -> Settled<J>
        requires { (editors.0.number ≡ 0) × (editors.1.number ≡ 1) }
        ensures told { result.told ≡ max (length editors.0.told) (length editors.1.told) }
        ensures first { StartsWith result.log.told editors.0.told }
        ensures second { StartsWith result.log.told editors.1.told }
    {
        let told = editors.0.told_count().max(editors.1.told_count());
        let log = hub.close(editors);
        Settled { log, told }
    }

    /// Whether the editors were told of all commits of the log, and what was published begins with all that a viewer saw.
    pub fn accounts_for(&self, viewer: &Viewer<J>) -> bool
        ensures { IsAccount self.now viewer.now result }
    {
        self.told == self.log.commits.len() as u64 && self.log.reaches(viewer)
    }
}
