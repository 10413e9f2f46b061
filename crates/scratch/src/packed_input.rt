//! Inputs of gates in 32 bits.

ghost use Rattle.std.specs.Prelude.{◌≡◌, ◌<◌, IfSome};
ghost use Rattle.scratch.specs.kept.PackedInputs.{IsPackable};
ghost use Rattle.scratch.specs.declared.wiring.Input.TheVariants.{At};

use crate::wiring::Input;
use fourstate::Value;
use std::marker::Model;
use std::mem::size_of;

const _: () = prove!(size_of::<PackedInput>() == 4);

/// The numbers below this one are places of nets; from it on each of the four values has one.
const FIRST_VALUE: u32 = 0xFFFF_FFFC;

/// Where an input of a gate gets its value from, as one number, so that four inputs lie beside a gate in 16 bytes (own).
/// Contracts see the input.
#[derive(Clone, Copy, Debug, PartialEq, Eq)]
pub struct PackedInput {
    number: u32,
}

impl Model for PackedInput {
    ghost use Rattle.scratch.specs.declared.wiring.Input as inputs;
    ghost use Rattle.scratch.specs.kept.PackedInputs.{input_of_fields, fields_of_input, IsNumber, fields_of_input-kept};

    ghost Value = { inputs.Input };

    ghost view = { input_of_fields };

    ghost invariant = { IsNumber };

    ghost inverse = { fields_of_input };

    ghost inverse_ok = { fields_of_input-kept };
}

/// A constant x: what stands where a gate has no further input.
impl Default for PackedInput {
    ghost use Rattle.std.specs.Prelude.{◌≡◌};
    ghost use Rattle.fourstate.specs.declared.value.Value.TheVariants.{Unknown};
    ghost use Rattle.scratch.specs.declared.wiring.Input.TheVariants.{Fixed};

    ghost is_default = { λ input. input ≡ Fixed Unknown };

    fn default() -> PackedInput {
        PackedInput::new(Input::Fixed(Value::Unknown))
    }
}

impl PackedInput {
    /// This input.
    pub fn new(input: Input) -> PackedInput
        requires { IsPackable input }
        ensures { result ≡ input }
    {
        let number = match input {
            Input::At(place) => place,
            Input::Fixed(value) => FIRST_VALUE + value as u32,
        };
        PackedInput { number }
    }

    /// The place of the net that it reads, if that is one of the first `count`.
    #[inline(always)]
    pub fn place_below(self, count: usize) -> Option<usize>
        ensures { IfSome result (λ place. (place < count) × (self ≡ At place)) }
    {
        let place = self.number as usize;
        if place < count.min(FIRST_VALUE as usize) {
            Some(place)
        } else {
            None
        }
    }

    /// The input.
    #[inline(always)]
    pub fn get(self) -> Input
        ensures { result ≡ self }
    {
        if self.number < FIRST_VALUE {
            return Input::At(self.number);
        }
        let value = match self.number - FIRST_VALUE {
            0 => Value::Zero,
            1 => Value::One,
            2 => Value::Unknown,
            _ => Value::HighZ,
        };
        Input::Fixed(value)
    }
}
