//! The terminals of a gate instance.

ghost use Rattle.std.specs.Prelude.{◌≡◌, ◌≤◌, ◌<◌, length};
ghost use Rattle.vtext.specs.Instances.{inputs_of, is_arity_wrong, is_constant, is_constant_driven, output_count, outputs_of, part_count};

use crate::gate::Terminal;
use fourstate::{GateKind, fits};

impl Terminal {
    /// Whether it is a constant.
    pub fn is_constant(self) -> bool
        ensures { result ≡ is_constant self }
    {
        match self {
            Terminal::Constant(_) => true,
            Terminal::Net(_) | Terminal::Bit(_, _) => false,
        }
    }
}

/// How many of so many terminals are outputs.
pub fn output_count(kind: GateKind, terminals: usize) -> usize
    ensures { result ≡ output_count kind terminals }
{
    match kind {
        GateKind::Buf | GateKind::Not => terminals.saturating_sub(1),
        _ => 1,
    }
}

/// The outputs and the inputs among terminals.
pub fn split(kind: GateKind, terminals: &[Terminal]) -> (&[Terminal], &[Terminal])
    ensures outputs { result.0.now ≡ outputs_of kind terminals.now }
    ensures inputs { result.1.now ≡ inputs_of kind terminals.now }
{
    let count = output_count(kind, terminals.len());
    if count <= terminals.len() {
        terminals.split_at(count)
    } else {
        (terminals, &[])
    }
}

/// Whether there is no output, or the number of inputs doesn't fit.
pub fn is_arity_wrong(kind: GateKind, terminals: &[Terminal]) -> bool
    ensures { result ≡ is_arity_wrong kind terminals.now }
{
    let (outputs, inputs) = split(kind, terminals);
    outputs.is_empty() || !fits(kind, inputs.len())
}

/// Whether an output is a constant.
pub fn is_constant_driven(kind: GateKind, terminals: &[Terminal]) -> bool
    ensures { result ≡ is_constant_driven kind terminals.now }
{
    let (outputs, _) = split(kind, terminals);
    outputs.iter().any(|output| output.is_constant())
}

/// How many names are made of the name of an instance.
pub fn part_count(outputs: usize) -> usize
    ensures { result ≡ part_count outputs }
{
    if outputs <= 1 { 0 } else { outputs }
}
