//! The four values (IEEE 1364-2005, 4.1).

ghost use Rattle.std.specs.Prelude.{◌≡◌};
ghost use Rattle.fourstate.specs.Values.{reading, inverse, symbol_of, value_of_symbol};

/// A value of a net, a driver or a terminal (IEEE 1364-2005, 4.1).
#[derive(Clone, Copy, Debug, Default, PartialEq, Eq, Hash)]
pub enum Value {
    /// Logic 0, false.
    Zero,
    /// Logic 1, true.
    One,
    /// x, a value that is not known.
    #[default]
    Unknown,
    /// z, high impedance: nothing drives.
    HighZ,
}

impl Value {
    /// The value as a gate input reads it: z acts as x (IEEE 1364-2005, 7.2 to 7.4).
    #[inline(always)]
    pub fn as_input(self) -> Value
        ensures { result ≡ reading self }
    {
        match self {
            Value::HighZ => Value::Unknown,
            value => value,
        }
    }

    /// The value inverted; x and z give x (IEEE 1364-2005, 7.3).
    #[inline(always)]
    pub fn inverted(self) -> Value
        ensures { result ≡ inverse self }
    {
        match self {
            Value::Zero => Value::One,
            Value::One => Value::Zero,
            _ => Value::Unknown,
        }
    }

    /// The value as one byte of text: `0`, `1`, `x` or `z`.
    pub fn symbol(self) -> u8
        ensures { result ≡ symbol_of self }
    {
        match self {
            Value::Zero => b'0',
            Value::One => b'1',
            Value::Unknown => b'x',
            Value::HighZ => b'z',
        }
    }

    /// The value that this byte writes, in lower case; none at any other byte.
    pub fn from_symbol(symbol: u8) -> Option<Value>
        ensures { result ≡ value_of_symbol symbol }
    {
        match symbol {
            b'0' => Some(Value::Zero),
            b'1' => Some(Value::One),
            b'x' => Some(Value::Unknown),
            b'z' => Some(Value::HighZ),
            _ => None,
        }
    }
}
