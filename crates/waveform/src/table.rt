//! Timelines by key, which copies share.

ghost use Rattle.std.specs.Prelude.{◌≡◌, ◌≤◌, ◌<◌, ℕ, [], ◌++◌, Some, None, IfOk, OnErr, OnOk, length, replicate};
ghost use Rattle.std.specs.Option.{option_copied};
ghost use Rattle.waveform.specs.kept.Tables.{IsChangedAt, IsUnchanged, line_at};

use crate::sample::Sample;
use crate::timeline::Timeline;
use chunked::{Chunked, Shared};
use std::alloc::{AllocError, Global};
use std::marker::Model;

/// A timeline under each of some keys. A copy shares all of them; one that is then put or taken away in one of the copies
/// is as it was in the other. Contracts see what stands under the keys from 0 on.
#[derive(Drop)]
pub struct Table<V: Sample> {
    lines: Chunked<Option<Shared<Timeline<V>>>>,
}

impl<V: Sample> Model for Table<V> {
    ghost use Rattle.std.specs.Prelude.{ℕ, List, Option};

    ghost Value = { List (Option (List (ℕ × V))) };

    ghost view = { λ a. a.lines };
}

impl<V: Sample> Table<V> {
    /// No timeline. It takes no memory.
    pub fn new(alloc: Global) -> Table<V>
        ensures { result ≡ [] }
    {
        Table {
            lines: Chunked::new(alloc),
        }
    }

    /// A copy, which shares the timelines. It fails where memory runs out.
    pub fn try_clone(&self) -> Result<Table<V>, AllocError>
        ensures { IfOk result (λ copy. copy ≡ self.now) }
    {
        let lines = self.lines.try_clone()?;
        Ok(Table { lines })
    }

    /// The timeline under a key.
    pub fn get(&self, key: usize) -> Option<&Timeline<V>>
        ensures { option_copied result ≡ line_at self.now key }
    {
        let line = self.lines.get(key)?.as_ref()?;
        Some(line.value())
    }

    /// Puts a timeline under a key. It fails where memory runs out, and then each key has what it had.
    pub fn put(&mut self, key: usize, line: Timeline<V>) -> Result<(), AllocError>
        ensures ok { OnOk result (IsChangedAt key (Some line) self.old self.new) }
        ensures err { OnErr result (IsUnchanged self.old self.new) }
    {
        let line = Shared::new(self.lines.allocator(), line)?;
        self.share(key, line)
    }

    /// Puts a timeline under a key that others may have too. It fails where memory runs out, and then each key has what it had.
    pub fn share(&mut self, key: usize, line: Shared<Timeline<V>>) -> Result<(), AllocError>
        ensures ok { OnOk result (IsChangedAt key (Some line) self.old self.new) }
        ensures err { OnErr result (IsUnchanged self.old self.new) }
    {
        grow(&mut self.lines, key)?;
        self.lines.set(key, Some(line))?;
        Ok(())
    }

    /// Takes the timeline under a key away. It fails where memory runs out, and then each key has what it had.
    pub fn clear(&mut self, key: usize) -> Result<(), AllocError>
        ensures ok { OnOk result (IsChangedAt key None self.old self.new) }
        ensures err { OnErr result (IsUnchanged self.old self.new) }
    {
        if key < self.lines.len() {
            self.lines.set(key, None)?;
        }
        Ok(())
    }
}

/// Adds keys that have nothing, until there is this one.
fn grow<V: Sample>(
    lines: &mut Chunked<Option<Shared<Timeline<V>>>>,
    key: usize,
) -> Result<(), AllocError>
    ensures there { OnOk result (key < length lines.new) }
    ensures same { IsUnchanged lines.old lines.new }
{
    while lines.len() <= key {
        lines.push(None)?;
    }
    Ok(())
}
