//! The values of a few inputs, made beforehand.

ghost use Rattle.std.specs.Prelude.{◌≡◌, ◌<◌, ◌≤◌, List, Some, length, slice_get};
ghost use Rattle.fourstate.specs.declared.value.Value.{Value};
ghost use Rattle.gateline.specs.kept.Codes.{code_of, value_of_digit};

use fourstate::{Inputs, Value};
use std::alloc::{AllocError, Global};

/// The values of as many inputs, and of fewer, are made beforehand (own).
pub const FEW_INPUTS: usize = 4;

/// How many numbers there are for the values of up to `FEW_INPUTS` inputs.
const CODES: usize = 512;

/// The values of up to `FEW_INPUTS` inputs, all that there are, made beforehand (own): a gate finds the values of its inputs by
/// their number, in place of putting them together at each moment. The number of no values is 1, that of a value before others is
/// four times theirs and that of the value, 0 to 3.
#[derive(Drop)]
pub struct InputsTable {
    // The values of each number, in order; those of 0 stand for nothing.
    entries: Vec<Inputs>,
    ghost many: { length entries.items ≡ 512 },
    ghost all: { (values : List Value) → length values ≤ 4 → slice_get entries.items (code_of values) ≡ Some values },
}

/// The value of this number.
fn value_of_digit(digit: usize) -> Value
    ensures { result ≡ value_of_digit digit }
{
    match digit {
        0 => Value::Zero,
        1 => Value::One,
        2 => Value::Unknown,
        _ => Value::HighZ,
    }
}

impl InputsTable {
    /// The table of all values. It fails where memory runs out.
    pub fn new(alloc: Global) -> Result<InputsTable, AllocError> {
        let mut entries = Vec::with_capacity(alloc, CODES)?;
        entries.push(Inputs::new())?;
        entries.push(Inputs::new())?;
        while entries.len() < CODES {
            let code = entries.len();
            let mut inputs = entries[code / 4];
            inputs.put_first(value_of_digit(code % 4));
            entries.push(inputs)?;
        }
        Ok(InputsTable { entries })
    }

    /// The values of this number.
    #[inline(always)]
    pub fn get(&self, code: usize) -> Inputs
        requires { code < 512 }
        ensures { (values : List Value) → length values ≤ 4 → code ≡ code_of values → result ≡ values }
    {
        self.entries[code]
    }
}
