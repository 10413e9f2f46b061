//! A list of gate keys.

ghost use Rattle.std.specs.Prelude.{◌≡◌, ◌≤◌, ◌<◌, [], insert, IfOk, OnErr, OnOk, length};
ghost use Rattle.std.specs.Arc.{arc_value};
ghost use Rattle.design.specs.kept.Lists.{without_key};

use crate::few::{FEW, Few};
use crate::key::GateKey;
use chunked::ExactClone;
use std::alloc::{AllocError, Global};
use std::marker::Model;
use std::sync::Arc;

/// A list of gate keys. A few of them stand in the value itself; copies of a longer list share it, until one of them is
/// changed. Contracts see the list.
#[derive(Debug, Drop)]
pub struct KeyList {
    keys: Keys,
}

#[derive(Debug, Drop)]
enum Keys {
    Here(Few),
    Shared(Arc<Vec<GateKey>>),
}

impl Model for KeyList {
    ghost use Rattle.std.specs.Prelude.{ℕ, List};

    ghost Value = { List ℕ };

    ghost use Rattle.design.specs.kept.KeyLists.{keys_in};

    ghost view = { λ a. keys_in a.keys };
}

impl KeyList {
    /// No key. It takes no memory.
    pub fn new() -> KeyList
        ensures { result ≡ [] }
    {
        KeyList {
            keys: Keys::Here(Few::new()),
        }
    }

    /// The keys.
    pub fn as_slice(&self) -> &[GateKey]
        ensures { result.now ≡ self.now }
    {
        match &self.keys {
            Keys::Here(few) => few.as_slice(),
            Keys::Shared(keys) => keys.as_slice(),
        }
    }

    /// Puts a key before that at `at`. It fails where memory runs out.
    pub fn insert(&mut self, alloc: Global, at: usize, key: GateKey) -> Result<(), AllocError>
        requires { at ≤ length self.old }
        ensures ok { OnOk result (self.new ≡ insert self.old at key) }
        ensures err { OnErr result (self.new ≡ self.old) }
    {
        match &mut self.keys {
            Keys::Here(few) => {
                if few.as_slice().len() < FEW {
                    few.insert(at, key);
                } else {
                    self.keys = Keys::Shared(shared_with(alloc, few.as_slice(), at, key)?);
                }
            }
            Keys::Shared(keys) => insert_shared(keys, at, key)?,
        }
        Ok(())
    }

    /// Takes a key out. It fails where memory runs out.
    pub fn remove(&mut self, key: GateKey) -> Result<(), AllocError>
        ensures ok { OnOk result (self.new ≡ without_key self.old key) }
        ensures err { OnErr result (self.new ≡ self.old) }
    {
        match &mut self.keys {
            Keys::Here(few) => few.remove(key),
            Keys::Shared(keys) => remove_shared(keys, key)?,
        }
        Ok(())
    }
}

/// The keys with one put before that at `at`, to be shared.
fn shared_with(
    alloc: Global,
    keys: &[GateKey],
    at: usize,
    key: GateKey,
) -> Result<Arc<Vec<GateKey>>, AllocError>
    requires { at ≤ length keys.now }
    ensures { IfOk result (λ shared. (arc_value shared).items ≡ insert keys.now at key) }
{
    let mut keys = Vec::from_slice(alloc, keys)?;
    keys.insert(at, key)?;
    Ok(Arc::new(alloc, keys)?)
}

fn insert_shared(keys: &mut Arc<Vec<GateKey>>, at: usize, key: GateKey) -> Result<(), AllocError>
    requires { at ≤ length (arc_value keys.old).items }
    ensures ok { OnOk result ((arc_value keys.new).items ≡ insert (arc_value keys.old).items at key) }
    ensures err { OnErr result ((arc_value keys.new).items ≡ (arc_value keys.old).items) }
{
    Arc::make_mut(keys)?.insert(at, key)?;
    Ok(())
}

fn remove_shared(keys: &mut Arc<Vec<GateKey>>, key: GateKey) -> Result<(), AllocError>
    ensures ok { OnOk result ((arc_value keys.new).items ≡ without_key (arc_value keys.old).items key) }
    ensures err { OnErr result ((arc_value keys.new).items ≡ (arc_value keys.old).items) }
{
    take_out(Arc::make_mut(keys)?, key);
    Ok(())
}

fn take_out(keys: &mut Vec<GateKey>, key: GateKey)
    ensures { keys.new.items ≡ without_key keys.old.items key }
{
    keys.retain(|kept| *kept != key);
}

impl Clone for KeyList {
    ghost use Rattle.std.specs.Prelude.{◌≡◌};

    ghost is_clone = { λ old new. new ≡ old };

    fn clone(&self) -> Result<KeyList, AllocError> {
        let keys = match &self.keys {
            Keys::Here(few) => Keys::Here(few.clone()?),
            Keys::Shared(keys) => Keys::Shared(Arc::try_clone(keys)?),
        };
        Ok(KeyList { keys })
    }
}

impl ExactClone for KeyList {
    ghost exact = { λ _ _ same. same };
}
