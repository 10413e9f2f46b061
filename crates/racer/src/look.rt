//! The looks of a viewer, each against a run of its design from scratch.

ghost use Rattle.std.specs.Prelude.{◌≡◌, ◌+◌, ◌<◌, ◌^◌, IfErr, IfOk, false};
ghost use Rattle.std.specs.Arc.{arc_value};
ghost use Rattle.hub.specs.Commits.{snapshot_after};
ghost use Rattle.racer.specs.Tallies.{Counts};
ghost use Rattle.racer.specs.kept.Tallies.{HasLooked, with_look};

use crate::tally::Tally;
use bench::Snapshot;
use gatestep::Serial;
use hub::{HubName, LookFault, Viewer};
use scratch::simulate;
use std::alloc::Global;
use std::sync::Arc;

/// What a look of a viewer gave.
#[derive(Drop)]
struct Look {
    seen: Result<Arc<Snapshot>, LookFault>,
}

impl Look {
    fn take<J: HubName>(viewer: &mut Viewer<J>) -> Look
        ensures { IfOk result.seen (λ snapshot. arc_value snapshot ≡ snapshot_after J.origin viewer.new) }
    {
        Look {
            seen: viewer.look(),
        }
    }

    // Counts the look.
    fn count(self, alloc: Global, tally: &mut Tally)
        requires { tally.old.looks + 1 < 2 ^ 64 }
        ensures looked { HasLooked tally.old tally.new }
        ensures refused { IfErr self.seen (λ _. tally.new ≡ with_look false tally.old) }
    {
        let Look { seen } = self;
        match seen {
            Ok(snapshot) => compare(alloc, &snapshot, tally),
            Err(fault) => tally.add_refused(fault),
        }
    }
}

// Counts a look that gave this snapshot.
fn compare(alloc: Global, snapshot: &Snapshot, tally: &mut Tally)
    requires { tally.old.looks + 1 < 2 ^ 64 }
    ensures { HasLooked tally.old tally.new }
{
    let design = snapshot.design();
    let found = simulate(alloc, design, &mut Serial::new());
    tally.add_look(snapshot, design, found);
}

/// What a viewer's thread leaves: the viewer, and what its looks gave.
#[derive(Drop)]
pub struct Watched<J: HubName> {
    pub viewer: Viewer<J>,
    pub tally: Tally,
}

/// A viewer looks so many times.
pub fn watch<J: HubName>(alloc: Global, viewer: Viewer<J>, looks: u32) -> Watched<J>
    ensures { Counts 0 looks 0 result.tally }
{
    let mut viewer = viewer;
    let mut tally = Tally::new();
    'looks: for _look in 0..looks {
        Look::take(&mut viewer).count(alloc, &mut tally);
    }
    Watched { viewer, tally }
}
