//! A desk that threads share.

ghost use Rattle.std.specs.Prelude.{◌≡◌, ◌+◌, ◌↔◌, [], IsTrue, IfErr, IfOk, All, length};
ghost use Rattle.hubcore.specs.Lists.{StartsWith};
ghost use Rattle.hub.specs.Commits.{count_of};
ghost use Rattle.hub.specs.Desks.{FoundSomeLog, answered, editor_of};

use crate::desk::Desk;
use crate::editor::Editor;
use crate::fault::HubFault;
use crate::log::Log;
use crate::name::HubName;
use crate::parts::Parts;
use crate::receipt::Receipt;
use crate::viewer::Viewer;
use edits::Edit;
use gatestep::Stepper;
use std::sync::ledger::Ledger;
use std::sync::{Mutex, Wait};

/// A desk under a lock, which editors share. Viewers take no part in the lock. Where it is dropped and not closed, nothing more is
/// published.
#[derive(Drop)]
pub struct Hub<J: HubName, L: Ledger, M: Ledger, S: Stepper + Drop, R: Wait + Drop> {
    desk: Mutex<Desk<J, L, M, S, R>>,
}

impl<J: HubName, L: Ledger, M: Ledger, S: Stepper + Drop, R: Wait + Drop> Hub<J, L, M, S, R> {
    /// A hub without commits, its two editors, and its viewers, which saw nothing. Its names are those of the parts.
    pub fn open(
        rt: R,
        parts: Parts<S>,
    ) -> Result<
        (
            Hub<J, L, M, S, R>,
            (Editor<J, L, M>, Editor<J, L, M>),
            Vec<Viewer<J>>,
        ),
        HubFault,
    >
        requires names { (parts.origin ≡ J.origin) × (parts.book ≡ J.book) }
        requires first { (parts.first_name ≡ L.name) × (parts.first_parts ≡ L.parts) }
        requires second { (parts.second_name ≡ M.name) × (parts.second_parts ≡ M.parts) }
        ensures editors { IfOk result (λ opened. (opened.1.0 ≡ editor_of 0 0 []) × (opened.1.1 ≡ editor_of 1 0 [])) }
        ensures viewers { IfOk result (λ opened. All (λ viewer. viewer ≡ []) opened.2.items × (length opened.2.items ≡ parts.viewers)) }
        ensures fault { IfErr result (λ fault. fault ≡ HubFault.OutOfMemory) }
    {
        let (desk, editors, viewers) = Desk::open(rt, parts)?;
        let hub = Hub {
            desk: Mutex::new(desk),
        };
        Ok((hub, editors, viewers))
    }

    /// Takes the lock, commits the edits for an editor, and publishes all accepted commits that are not published yet. The log that
    /// it finds has all of this editor's commits, and those of the other one up to then. It begins with what this editor's last
    /// receipt told, and so does what this one tells.
    pub fn submit<W: Wait>(
        &self,
        rt: &W,
        editor: &mut Editor<J, L, M>,
        edits: &[Edit],
    ) -> Receipt<J>
        ensures found { FoundSomeLog J.origin editor.old edits.now result }
        ensures editor { editor.new ≡ answered editor.old result.reply result.told }
        ensures number { editor.new.number ≡ editor.old.number }
    {
        self.desk.lock(rt).submit(editor, edits)
    }

    /// Takes the lock, and puts another stepper in the place of the present one, which it gives back.
    pub fn restep<W: Wait>(&self, rt: &W, stepper: S) -> S {
        self.desk.lock(rt).restep(stepper)
    }

    /// Publishes all accepted commits that are not published yet, and ends the hub. It waits for viewers that are just looking; from
    /// then on a look is refused as closed.
    pub fn close(self, editors: (Editor<J, L, M>, Editor<J, L, M>)) -> Log<J>
        requires { (editors.0.number ≡ 0) × (editors.1.number ≡ 1) }
        ensures first { count_of 0 result.commits ≡ editors.0.count }
        ensures second { count_of 1 result.commits ≡ editors.1.count }
        ensures all { length result.commits ≡ editors.0.count + editors.1.count }
        ensures told { StartsWith result.commits result.told }
        ensures shown { IsTrue result.shown ↔ (result.told ≡ result.commits) }
        ensures first_told { StartsWith result.told editors.0.told }
        ensures second_told { StartsWith result.told editors.1.told }
    {
        let Hub { desk } = self;
        desk.into_inner().close(editors)
    }
}
