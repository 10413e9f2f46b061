//! Going along the wave of a net.

ghost use Rattle.std.specs.Prelude.{◌≡◌, ◌<◌, ◌≤◌, IfSome, option_map};
ghost use Rattle.fourstate.specs.Values.{same_value};
ghost use Rattle.design.specs.Netlist.{net_named};
ghost use Rattle.waveform.specs.Changes.{wave_at};
ghost use Rattle.waveform.specs.Timelines.{first_after, last_before, next_to};
ghost use Rattle.waveform.specs.declared.times.TheConstants.{TIME_END};
ghost use Rattle.bench.specs.Cursors.{at_time, begin_of, moved};

use crate::snapshot::Snapshot;
use fourstate::Value;
use std::marker::Model;
use waveform::{Change, Wave};

/// A moment in the wave of a net of a snapshot, from the first one to the last of the run. A move goes to a change, or stays
/// where there is none. It takes no memory.
#[derive(Drop)]
pub struct Cursor<'a> {
    wave: &'a Wave,
    horizon: u64,
    time: u64,
}

impl<'a> Model for Cursor<'a> {
    ghost use Rattle.bench.specs.Cursors.{CursorRecord};

    ghost Value = { CursorRecord };

    ghost view = { λ c. record { changes = c.wave.now; horizon = c.horizon; time = c.time } };
}

impl<'a> Cursor<'a> {
    /// A cursor on the wave of the net of this name, at moment 0; none where no net has the name.
    pub fn open(snapshot: &'a Snapshot, net: &str) -> Option<Cursor<'a>>
        ensures { result ≡ option_map (begin_of snapshot.now.design) (net_named snapshot.now.design net.now) }
    {
        let wave = snapshot.wave(net)?;
        Some(Cursor {
            wave,
            horizon: snapshot.horizon(),
            time: 0,
        })
    }

    /// Stands at the moment `t`, in time units, which is within the run.
    pub fn set(&mut self, t: u64)
        requires { t ≤ self.old.horizon }
        ensures { self.new ≡ at_time self.old t }
    {
        self.time = t;
    }

    /// The last moment of the run, in time units.
    pub fn horizon(&self) -> u64
        ensures { result ≡ self.now.horizon }
    {
        self.horizon
    }

    /// The moment, in time units.
    pub fn time(&self) -> u64
        ensures { result ≡ self.now.time }
    {
        self.time
    }

    /// The value at the moment.
    pub fn value(&self) -> Value
        ensures { result ≡ wave_at self.now.changes self.now.time }
    {
        self.wave.at(self.time)
    }

    /// Goes to the first change after the moment.
    pub fn next(&mut self) -> Option<Change>
        ensures found { result ≡ first_after self.old.changes self.old.time }
        ensures moved { self.new ≡ moved self.old result }
    {
        let change = self.wave.next_after(self.time);
        self.go(change)
    }

    /// Goes to the last change before the moment.
    pub fn prev(&mut self) -> Option<Change>
        ensures found { result ≡ last_before self.old.changes self.old.time }
        ensures moved { self.new ≡ moved self.old result }
    {
        let change = self.wave.last_before(self.time);
        self.go(change)
    }

    /// Goes to the first change after the moment to this value.
    pub fn find(&mut self, value: Value) -> Option<Change>
        ensures found { result ≡ next_to same_value self.old.changes self.old.time value }
        ensures moved { self.new ≡ moved self.old result }
    {
        let change = self.wave.next_value(self.time, value);
        self.go(change)
    }

    // Goes to a change, if there is one.
    fn go(&mut self, change: Option<(u64, Value)>) -> Option<Change>
        requires { IfSome change (λ c. c.0 < TIME_END) }
        ensures found { result ≡ change }
        ensures moved { self.new ≡ moved self.old change }
    {
        let (time, value) = change?;
        self.time = time;
        Some(Change::new(time, value))
    }
}
