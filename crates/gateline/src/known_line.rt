//! The line of a gate that another thread found.

ghost use Rattle.std.specs.Prelude.{◌≡◌, suc};
ghost use Rattle.std.specs.Option.{ForSome};
ghost use Rattle.gatestep.specs.Step.{advance};
ghost use Rattle.gateline.specs.kept.Line.{always_wanted, line_trace, line_work_from};
ghost use Rattle.gateline.specs.kept.Reads.{reads_by};
ghost use Rattle.waveform.specs.Changes.{wave_changes_below};
ghost use Rattle.waveform.specs.kept.Currents.{currents};

use crate::reads::Read;
use chunked::Shared;
use fourstate::{Delays, GateKind};
use gatestep::Record;
use waveform::{Trace, Wave};

/// What is found of a gate over all of time.
#[derive(Drop)]
pub struct Line {
    /// The trace of its driver.
    pub trace: Shared<Trace>,
    /// What the driver gives, as a wave, if that is found too.
    pub wave: Option<Shared<Wave>>,
}

/// The line of a gate with what it was followed along and what was asked for it. The type keeps that it is the line of such a gate, so
/// whoever follows one of the same kind along the same waves may take it, whichever thread found it.
#[derive(Drop)]
pub struct KnownLine {
    /// The gate's kind.
    pub kind: GateKind,
    /// Its delays.
    pub delays: Delays,
    /// What its inputs have.
    pub reads: Vec<Read>,
    /// The first moment of which it was asked, in time units.
    pub begin: u64,
    /// The last moment, in time units.
    pub last: u64,
    /// The line.
    pub line: Line,
    /// What was asked.
    pub history: Record,
    ghost trace: { line.trace ≡ line_trace advance kind delays (reads_by reads.items) (suc last) },
    ghost wave: { ForSome line.wave (λ wave. wave ≡ wave_changes_below (currents line.trace) (suc last)) },
    ghost asked: { history.asked ≡ line_work_from advance kind delays (reads_by reads.items) always_wanted begin (suc last) },
    ghost none_lost: { history.losses ≡ 0 },
}
