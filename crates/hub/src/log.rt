//! What is left of a hub that has ended.

ghost use Rattle.std.specs.Prelude.{◌<◌, length, MatchBool};
ghost use Rattle.hubcore.specs.Lists.{StartsWith};

use crate::entry::Entry;
use crate::history::Beginning;
use crate::name::HubName;
use crate::viewer::Viewer;
use std::marker::Model;

/// The accepted commits of a hub that has ended, in order, and whether all of them were published. Contracts also see which were.
#[derive(Drop)]
pub struct Log<J: HubName> {
    pub commits: Vec<Entry>,
    pub shown: bool,
    pub(crate) told: Beginning<J>,
}

impl<J: HubName> Model for Log<J> {
    ghost use Rattle.hub.specs.kept.Desks.{LogRecord};

    ghost Value = { LogRecord };

    ghost view = { λ l. record { commits = l.commits.items; shown = l.shown; told = l.told } };
}

impl<J: HubName> Log<J> {
    /// Whether what was published begins with all that a viewer saw or was told of. If not, that goes on behind it.
    pub fn reaches(&self, viewer: &Viewer<J>) -> bool
        ensures { MatchBool result (StartsWith self.now.told viewer.now) (StartsWith viewer.now self.now.told × (length self.now.told < length viewer.now)) }
    {
        self.told.reaches(viewer.commits())
    }
}
