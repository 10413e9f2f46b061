//! Snapshots that are held by name.

ghost use Rattle.std.specs.Prelude.{◌≡◌, ◌++◌, ◌∷◌, [], None, if◌then◌else◌, is_some, IsTrue, IfErr, MatchResult, OnErr, OnOk, unwrap_or};
ghost use Rattle.std.specs.Arc.{arc_value};
ghost use Rattle.std.specs.Option.{option_copied};
ghost use Rattle.design.specs.Names.{is_name};
ghost use Rattle.session.specs.Held.{held_as, hold_fault, is_held, without_held};
ghost use Rattle.session.specs.Words.{same_word};

use bench::Snapshot;
use design::Name;
use edits::EditFault;
use std::alloc::{AllocError, Global};
use std::marker::Model;
use std::sync::Arc;

/// The most names under which snapshots are held at once (own).
pub const MAX_HELD: usize = 64;

/// A snapshot that is held, with its name.
#[derive(Drop)]
struct Hold {
    name: Name,
    snapshot: Arc<Snapshot>,
}

impl Model for Hold {
    ghost use Rattle.std.specs.Prelude.{ℕ, List};
    ghost use Rattle.std.specs.Arc.{arc_value};
    ghost use Rattle.bench.specs.Benches.{SnapshotRecord};

    ghost Value = { List ℕ × SnapshotRecord };

    ghost view = { λ h. (h.name, arc_value h.snapshot) };
}

impl Hold {
    fn has_name(&self, name: &str) -> bool
        ensures { result ≡ same_word self.now.0 name.now }
    {
        self.name.as_str() == name
    }

    fn snapshot(&self) -> &Snapshot
        ensures { result.now ≡ self.now.1 }
    {
        &self.snapshot
    }
}

/// The snapshots that a session holds. A held snapshot is shared and never changes.
#[derive(Drop)]
pub struct Held {
    holds: Vec<Hold>,
}

impl Model for Held {
    ghost use Rattle.std.specs.Prelude.{ℕ, List};
    ghost use Rattle.bench.specs.Benches.{SnapshotRecord};

    ghost Value = { List (List ℕ × SnapshotRecord) };

    ghost view = { λ h. h.holds.items };
}

impl Held {
    /// No snapshots. It takes no memory.
    pub fn new(alloc: Global) -> Held
        ensures { result ≡ [] }
    {
        Held {
            holds: Vec::new(alloc),
        }
    }

    /// The snapshot that is held under a name.
    pub fn get(&self, name: &str) -> Option<&Snapshot>
        ensures { option_copied result ≡ held_as self.now name.now }
    {
        let hold = self.holds.iter().find(|hold| hold.has_name(name))?;
        Some(hold.snapshot())
    }

    /// Holds a snapshot under a name too.
    pub fn hold(
        &mut self,
        alloc: Global,
        name: &str,
        snapshot: &Arc<Snapshot>,
    ) -> Result<(), EditFault>
        ensures held { OnOk result (self.new ≡ self.old ++ (name.now, arc_value snapshot.now) ∷ []) }
        ensures lawful { OnOk result (hold_fault self.old name.now ≡ None) }
        ensures unchanged { OnErr result (self.new ≡ self.old) }
        ensures refused { IfErr result (λ fault. fault ≡ unwrap_or (hold_fault self.old name.now) EditFault.OutOfMemory) }
    {
        if let Some(fault) = self.fault_of(name) {
            return Err(fault);
        }
        match self.add(alloc, name, snapshot) {
            Ok(()) => Ok(()),
            Err(_) => Err(EditFault::OutOfMemory),
        }
    }

    /// Holds no snapshot under the name any longer. Tells whether one was held.
    pub fn free(&mut self, name: &str) -> bool
        ensures found { result ≡ is_held self.old name.now }
        ensures freed { self.new ≡ (if result then without_held self.old name.now else self.old) }
    {
        if self.get(name).is_none() {
            return false;
        }
        self.holds.retain(|hold| !hold.has_name(name));
        true
    }

    // Why a name may not be held.
    fn fault_of(&self, name: &str) -> Option<EditFault>
        ensures { result ≡ hold_fault self.now name.now }
    {
        if !Name::is_valid(name) {
            return Some(EditFault::BadName);
        }
        if self.get(name).is_some() {
            return Some(EditFault::DuplicateName);
        }
        if self.holds.len() >= MAX_HELD {
            return Some(EditFault::TooMany);
        }
        None
    }

    fn add(&mut self, alloc: Global, name: &str, snapshot: &Arc<Snapshot>) -> Result<(), AllocError>
        requires { IsTrue (is_name name.now) }
        ensures { MatchResult result (λ _. self.new ≡ self.old ++ (name.now, arc_value snapshot.now) ∷ []) (λ _. self.new ≡ self.old) }
    {
        let name = Name::new(alloc, name)?;
        let snapshot = Arc::try_clone(snapshot)?;
        self.holds.push(Hold { name, snapshot })?;
        Ok(())
    }
}
