//! The inputs of a gate, read together.

ghost use Rattle.std.specs.Prelude.{◌≡◌, ◌≤◌, map, length, IfOk};
ghost use Rattle.fourstate.specs.declared.limits.TheConstants.{MAX_INPUTS};
ghost use Rattle.gateline.specs.declared.inputs_table.TheConstants.{FEW_INPUTS};
ghost use Rattle.gateline.specs.kept.Readers.{StandAt, next_among, seen, seen_then};
ghost use Rattle.gateline.specs.kept.Waves.{input_functions};

use crate::inputs_table::{FEW_INPUTS, InputsTable};
use crate::reader::Reader;
use chunked::Shared;
use fourstate::Inputs;
use scratch::Cell;
use smallvec::SmallVec;
use std::alloc::{AllocError, Global};
use waveform::{TIME_END, Wave};

/// As many readers lie in place, and need no allocation.
pub const NEAR_READERS: usize = 4;

/// The readers of a gate's inputs.
pub type Readers<'a> = SmallVec<Reader<'a>, NEAR_READERS>;

/// The readers of a gate's inputs, from the moment `t` on, in time units.
pub fn open_readers<'a>(
    alloc: Global,
    cell: &Cell,
    waves: &'a [Shared<Wave>],
    t: u64,
) -> Result<Readers<'a>, AllocError>
    ensures { IfOk result (λ readers. StandAt (input_functions waves.now cell.now.inputs) readers.items t) }
{
    let inputs = cell.inputs();
    let mut readers = SmallVec::with_capacity(alloc, inputs.len())?;
    for input in inputs {
        readers.push(Reader::of(input.get(), waves, t))?;
    }
    Ok(readers)
}

/// What the inputs of a gate have at a moment, and when one of them changes next.
#[derive(Clone, Copy)]
pub struct Reading {
    /// Their values.
    pub inputs: Inputs,
    /// The moment of the first change after it, in time units; `TIME_END` where there is none.
    pub next: u64,
}

/// Brings the readers to the moment `t`, in time units, before which no change comes.
#[inline(always)]
pub fn read(readers: &mut [Reader], t: u64, table: &InputsTable) -> Reading
    requires { length readers.old ≤ MAX_INPUTS }
    ensures readers { map seen readers.new ≡ map (seen_then t) readers.old }
    ensures inputs { result.inputs ≡ map (λ reader. reader.value) readers.new }
    ensures next { result.next ≡ next_among readers.new }
{
    if readers.len() > FEW_INPUTS {
        return read_many(readers, t);
    }
    read_few(readers, t, table)
}

/// Brings the readers to the moment `t`, in time units, before which no change comes, where they have these values before it and
/// `next` is the moment of their first change. They are gone through only where that is the moment `t`.
#[inline(always)]
pub fn read_on(
    readers: &mut Readers,
    t: u64,
    table: &InputsTable,
    inputs: Inputs,
    next: u64,
) -> Reading
    requires few { length readers.old.items ≤ MAX_INPUTS }
    requires inputs { inputs ≡ map (λ reader. reader.value) readers.old.items }
    requires next { next ≡ next_among readers.old.items }
    requires order { t ≤ next }
    ensures readers { map seen readers.new.items ≡ map (seen_then t) readers.old.items }
    ensures inputs { result.inputs ≡ map (λ reader. reader.value) readers.new.items }
    ensures next { result.next ≡ next_among readers.new.items }
{
    if next == t {
        return read(readers.as_mut_slice(), t, table);
    }
    Reading { inputs, next }
}

/// Brings up to `FEW_INPUTS` readers to the moment `t`, in time units, before which no change comes: their values stand in the
/// table, and are found by their number.
#[inline(always)]
fn read_few(readers: &mut [Reader], t: u64, table: &InputsTable) -> Reading
    requires { length readers.old ≤ FEW_INPUTS }
    ensures readers { map seen readers.new ≡ map (seen_then t) readers.old }
    ensures inputs { result.inputs ≡ map (λ reader. reader.value) readers.new }
    ensures next { result.next ≡ next_among readers.new }
{
    let mut code = 1;
    let mut next = TIME_END;
    let mut place = readers.len();
    while place > 0 {
        place -= 1;
        readers[place].pass(t);
        let reader = readers[place];
        code = code * 4 + reader.value as usize;
        next = next.min(reader.next());
    }
    Reading {
        inputs: table.get(code),
        next,
    }
}

/// Brings any number of readers to the moment `t`, in time units, before which no change comes: their values are put together.
#[inline(always)]
fn read_many(readers: &mut [Reader], t: u64) -> Reading
    requires { length readers.old ≤ MAX_INPUTS }
    ensures readers { map seen readers.new ≡ map (seen_then t) readers.old }
    ensures inputs { result.inputs ≡ map (λ reader. reader.value) readers.new }
    ensures next { result.next ≡ next_among readers.new }
{
    let mut inputs = Inputs::new();
    let mut next = TIME_END;
    let mut place = readers.len();
    while place > 0 {
        place -= 1;
        readers[place].pass(t);
        let reader = readers[place];
        inputs.put_first(reader.value);
        next = next.min(reader.next());
    }
    Reading { inputs, next }
}
