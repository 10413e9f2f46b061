//! The wave of a net of several drivers, merged from what each of them gives.

ghost use Rattle.std.specs.Prelude.{◌≡◌, ◌+◌, ◌<◌, ◌≤◌, map, IfOk, OnOk};
ghost use Rattle.fourstate.specs.Nets.{net_of};
ghost use Rattle.fourstate.specs.declared.limits.TheConstants.{MAX_TIME};
ghost use Rattle.gateline.specs.kept.Readers.{StandAt, next_among, seen, seen_then};
ghost use Rattle.waveform.specs.Changes.{wave_at, wave_changes_below};

use crate::reader::Reader;
use fourstate::{NetKind, Value, resolve};
use std::alloc::{AllocError, Global};
use waveform::{TIME_END, Wave, laws};

/// A reader of each wave, from moment 0 on.
fn open_each<'a>(alloc: Global, waves: &'a [Wave]) -> Result<Vec<Reader<'a>>, AllocError>
    ensures { IfOk result (λ readers. StandAt (map wave_at waves.now) readers.items 0) }
{
    let mut readers = Vec::with_capacity(alloc, waves.len())?;
    for wave in waves {
        readers.push(Reader::open(wave, 0))?;
    }
    Ok(readers)
}

/// Brings the readers to the moment `t`, in time units, before which no change comes, and puts their values there into `values`.
/// The result is the moment of the first change after it; `TIME_END` where there is none. It fails where memory runs out.
fn read_each(readers: &mut [Reader], t: u64, values: &mut Vec<Value>) -> Result<u64, AllocError>
    ensures readers { OnOk result (map seen readers.new ≡ map (seen_then t) readers.old) }
    ensures values { OnOk result (values.new.items ≡ map (λ reader. reader.value) readers.new) }
    ensures next { IfOk result (λ next. next ≡ next_among readers.new) }
{
    values.clear();
    let mut next = TIME_END;
    for place in 0..readers.len() {
        readers[place].pass(t);
        let reader = readers[place];
        values.push(reader.value)?;
        next = next.min(reader.next());
    }
    Ok(next)
}

/// The wave before the moment `end`, in time units, of a net of this kind, whose drivers give what these waves say. It looks at
/// the moments at which one of them changes, and at no others. It fails where memory runs out.
pub fn merge_waves(
    alloc: Global,
    kind: NetKind,
    waves: &[Wave],
    end: u64,
) -> Result<Wave, AllocError>
    requires begun { 0 < end }
    requires within { end ≤ MAX_TIME + 1 }
    ensures { IfOk result (λ wave. wave ≡ wave_changes_below (λ t. net_of kind (map (λ driven. wave_at driven t) waves.now)) end) }
{
    laws::push_to_changes::<Value>();
    laws::changes_lie_before::<Value>();
    laws::no_change::<Value>();
    let mut readers = open_each(alloc, waves)?;
    let mut values = Vec::with_capacity(alloc, waves.len())?;
    let mut t = read_each(readers.as_mut_slice(), 0, &mut values)?.min(end);
    let mut wave = Wave::open(alloc, resolve(kind, values.as_slice()))?;
    while t < end {
        let next = read_each(readers.as_mut_slice(), t, &mut values)?;
        wave.push(t, resolve(kind, values.as_slice()))?;
        t = next.min(end);
    }
    Ok(wave)
}
