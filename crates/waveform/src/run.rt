//! What a run leaves.

ghost use Rattle.std.specs.Prelude.{◌≡◌, [], Some, None, IfOk, OnErr, OnOk};
ghost use Rattle.std.specs.Option.{option_copied};
ghost use Rattle.waveform.specs.kept.Tables.{IsChangedAt, IsUnchanged, line_at};

use crate::table::Table;
use crate::trace::Trace;
use crate::wave::Wave;
use chunked::Shared;
use fourstate::Value;
use gatestep::Driver;
use std::alloc::{AllocError, Global};
use std::marker::Model;

/// What a run leaves: under the key of each net its wave, under the key of each gate the trace of its driver, up to the last
/// moment of the run, the horizon. Keys are numbers, best small ones. A copy shares all waves and traces; one that is then
/// put or taken away in one of the copies is as it was in the other.
#[derive(Drop)]
pub struct Run {
    waves: Table<Value>,
    traces: Table<Driver>,
    horizon: u64,
}

impl Model for Run {
    ghost use Rattle.waveform.specs.kept.Runs.{RunRecord};

    ghost Value = { RunRecord };

    ghost view = { λ a. record { waves = a.waves; traces = a.traces; horizon = a.horizon } };
}

impl Run {
    /// A run up to this moment, in time units, with no wave and no trace yet. It takes no memory.
    pub fn new(alloc: Global, horizon: u64) -> Run
        ensures { result ≡ record { waves = []; traces = []; horizon = horizon } }
    {
        Run {
            waves: Table::new(alloc),
            traces: Table::new(alloc),
            horizon,
        }
    }

    /// A copy, which shares the waves and traces. It takes a pointer for some hundred keys, and fails where memory runs out.
    pub fn try_clone(&self) -> Result<Run, AllocError>
        ensures { IfOk result (λ copy. copy ≡ self.now) }
    {
        let waves = self.waves.try_clone()?;
        let traces = self.traces.try_clone()?;
        Ok(Run {
            waves,
            traces,
            horizon: self.horizon,
        })
    }

    /// The wave under a net's key.
    pub fn wave(&self, key: usize) -> Option<&Wave>
        ensures { option_copied result ≡ line_at self.now.waves key }
    {
        self.waves.get(key)
    }

    /// The trace under a gate's key.
    pub fn trace(&self, key: usize) -> Option<&Trace>
        ensures { option_copied result ≡ line_at self.now.traces key }
    {
        self.traces.get(key)
    }

    /// The last moment of the run, in time units.
    pub fn horizon(&self) -> u64
        ensures { result ≡ self.now.horizon }
    {
        self.horizon
    }

    /// Puts a wave under a net's key. It fails where memory runs out, and then each key has what it had.
    pub fn put_wave(&mut self, key: usize, wave: Wave) -> Result<(), AllocError>
        ensures ok { OnOk result (IsChangedAt key (Some wave) self.old.waves self.new.waves) }
        ensures err { OnErr result (IsUnchanged self.old.waves self.new.waves) }
        ensures traces { self.new.traces ≡ self.old.traces }
        ensures horizon { self.new.horizon ≡ self.old.horizon }
    {
        let mut wave = wave;
        wave.mark()?;
        self.waves.put(key, wave)
    }

    /// Puts a trace under a gate's key. It fails where memory runs out, and then each key has what it had.
    pub fn put_trace(&mut self, key: usize, trace: Trace) -> Result<(), AllocError>
        ensures ok { OnOk result (IsChangedAt key (Some trace) self.old.traces self.new.traces) }
        ensures err { OnErr result (IsUnchanged self.old.traces self.new.traces) }
        ensures waves { self.new.waves ≡ self.old.waves }
        ensures horizon { self.new.horizon ≡ self.old.horizon }
    {
        self.traces.put(key, trace)
    }

    /// Puts a wave under a net's key that others may have too. It fails where memory runs out, and then each key has what it had.
    pub fn share_wave(&mut self, key: usize, wave: Shared<Wave>) -> Result<(), AllocError>
        ensures ok { OnOk result (IsChangedAt key (Some wave) self.old.waves self.new.waves) }
        ensures err { OnErr result (IsUnchanged self.old.waves self.new.waves) }
        ensures traces { self.new.traces ≡ self.old.traces }
        ensures horizon { self.new.horizon ≡ self.old.horizon }
    {
        self.waves.share(key, wave)
    }

    /// Puts a trace under a gate's key that others may have too. It fails where memory runs out, and then each key has what it had.
    pub fn share_trace(&mut self, key: usize, trace: Shared<Trace>) -> Result<(), AllocError>
        ensures ok { OnOk result (IsChangedAt key (Some trace) self.old.traces self.new.traces) }
        ensures err { OnErr result (IsUnchanged self.old.traces self.new.traces) }
        ensures waves { self.new.waves ≡ self.old.waves }
        ensures horizon { self.new.horizon ≡ self.old.horizon }
    {
        self.traces.share(key, trace)
    }

    /// Takes the wave under a net's key away. It fails where memory runs out, and then each key has what it had.
    pub fn clear_wave(&mut self, key: usize) -> Result<(), AllocError>
        ensures ok { OnOk result (IsChangedAt key None self.old.waves self.new.waves) }
        ensures err { OnErr result (IsUnchanged self.old.waves self.new.waves) }
        ensures traces { self.new.traces ≡ self.old.traces }
        ensures horizon { self.new.horizon ≡ self.old.horizon }
    {
        self.waves.clear(key)
    }

    /// Takes the trace under a gate's key away. It fails where memory runs out, and then each key has what it had.
    pub fn clear_trace(&mut self, key: usize) -> Result<(), AllocError>
        ensures ok { OnOk result (IsChangedAt key None self.old.traces self.new.traces) }
        ensures err { OnErr result (IsUnchanged self.old.traces self.new.traces) }
        ensures waves { self.new.waves ≡ self.old.waves }
        ensures horizon { self.new.horizon ≡ self.old.horizon }
    {
        self.traces.clear(key)
    }

    /// Gives the run another last moment, in time units. Its waves and traces stay as they are.
    pub fn set_horizon(&mut self, horizon: u64)
        ensures { self.new ≡ record self.old { horizon = horizon } }
    {
        self.horizon = horizon;
    }
}
