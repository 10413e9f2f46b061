//! What the inputs of a gate have over all of time.

ghost use Rattle.std.specs.Prelude.{◌≡◌, ℕ, true, IfOk};
ghost use Rattle.gateline.specs.kept.Reads.{read_at, reads_by};
ghost use Rattle.gateline.specs.kept.Waves.{input_at, inputs_by};
ghost use Rattle.waveform.specs.Changes.{wave_at};

use chunked::Shared;
use fourstate::Value;
use scratch::{Cell, Input};
use std::alloc::{AllocError, Global};
use waveform::Wave;

/// What an input of a gate has over all of time.
#[derive(Drop)]
pub enum Read {
    /// One value.
    Steady(Value),
    /// What a wave says.
    Along(Shared<Wave>),
}

impl Read {
    /// What an input has that reads one of these waves. It fails where memory runs out.
    fn of(input: Input, waves: &[Shared<Wave>]) -> Result<Read, AllocError>
        ensures { IfOk result (λ read. (t : ℕ) → read_at read t ≡ input_at waves.now input t) }
    {
        match input {
            Input::Fixed(value) => Ok(Read::Steady(value)),
            Input::At(place) => match waves.get(place as usize) {
                Some(wave) => Ok(Read::Along(wave.clone()?)),
                None => Ok(Read::Steady(Value::Unknown)),
            },
        }
    }

    /// Whether an input that reads one of these waves has just that.
    fn is_of(&self, input: Input, waves: &[Shared<Wave>]) -> bool
        ensures { result ≡ true → (t : ℕ) → read_at self.now t ≡ input_at waves.now input t }
    {
        match input {
            Input::Fixed(value) => self.is_steady(value),
            Input::At(place) => match waves.get(place as usize) {
                Some(wave) => self.is_along(wave.value()),
                None => self.is_steady(Value::Unknown),
            },
        }
    }

    /// Whether it is one value, this one.
    fn is_steady(&self, value: Value) -> bool
        ensures { result ≡ true → (t : ℕ) → read_at self.now t ≡ value }
    {
        match self {
            Read::Steady(mine) => *mine == value,
            Read::Along(_) => false,
        }
    }

    /// Whether it is what this wave says.
    fn is_along(&self, wave: &Wave) -> bool
        ensures { result ≡ true → (t : ℕ) → read_at self.now t ≡ wave_at wave.now t }
    {
        match self {
            Read::Steady(_) => false,
            Read::Along(mine) => mine.value().parting(wave).is_none(),
        }
    }
}

/// What the inputs of a gate have that read these waves. It fails where memory runs out.
pub fn reads_of(alloc: Global, cell: &Cell, waves: &[Shared<Wave>]) -> Result<Vec<Read>, AllocError>
    ensures { IfOk result (λ reads. (t : ℕ) → reads_by reads.items t ≡ inputs_by waves.now cell.now.inputs t) }
{
    let inputs = cell.inputs();
    let mut reads = Vec::with_capacity(alloc, inputs.len())?;
    for input in inputs {
        reads.push(Read::of(input.get(), waves)?)?;
    }
    Ok(reads)
}

/// Whether the inputs of a gate that read these waves have just that.
pub fn are_of(reads: &[Read], cell: &Cell, waves: &[Shared<Wave>]) -> bool
    ensures { result ≡ true → (t : ℕ) → reads_by reads.now t ≡ inputs_by waves.now cell.now.inputs t }
{
    let inputs = cell.inputs();
    if reads.len() != inputs.len() {
        return false;
    }
    for place in 0..inputs.len() {
        if !reads[place].is_of(inputs[place].get(), waves) {
            return false;
        }
    }
    true
}
