//! Gates (IEEE 1364-2005, 7.2 to 7.4).

ghost use Rattle.std.specs.Prelude.{◌≡◌, ◌<◌, IsTrue, length, map};
ghost use Rattle.fourstate.specs.Gates.{controlled, gate_of, same_kind, takes_inputs, takes_off};
ghost use Rattle.fourstate.specs.kept.Rules.{result_of};
ghost use Rattle.fourstate.specs.Values.{reading};
ghost use Rattle.fourstate.specs.Keywords.{gate_keyword, gate_kind_of};

use crate::inputs::Inputs;
use crate::limits::MAX_INPUTS;
use crate::value::Value;

/// The kinds of gates.
#[derive(Clone, Copy, Debug, PartialEq, Eq, Hash)]
pub enum GateKind {
    And,
    Nand,
    Or,
    Nor,
    Xor,
    Xnor,
    Buf,
    Not,
    /// Passes its data where its control is 1.
    Bufif1,
    /// Passes its data where its control is 0.
    Bufif0,
    /// Passes its data inverted where its control is 1.
    Notif1,
    /// Passes its data inverted where its control is 0.
    Notif0,
}

impl GateKind {
    /// Every kind.
    pub const ALL: [GateKind; 12] = [
        GateKind::And,
        GateKind::Nand,
        GateKind::Or,
        GateKind::Nor,
        GateKind::Xor,
        GateKind::Xnor,
        GateKind::Buf,
        GateKind::Not,
        GateKind::Bufif1,
        GateKind::Bufif0,
        GateKind::Notif1,
        GateKind::Notif0,
    ];

    /// Whether this is the same kind.
    pub fn is_same(self, other: GateKind) -> bool
        ensures { result ≡ same_kind self other }
    {
        self == other
    }

    /// The word that writes the kind (IEEE 1364-2005, annex B).
    pub fn keyword(self) -> &'static str
        ensures { result.now ≡ gate_keyword self }
    {
        match self {
            GateKind::And => "and",
            GateKind::Nand => "nand",
            GateKind::Or => "or",
            GateKind::Nor => "nor",
            GateKind::Xor => "xor",
            GateKind::Xnor => "xnor",
            GateKind::Buf => "buf",
            GateKind::Not => "not",
            GateKind::Bufif1 => "bufif1",
            GateKind::Bufif0 => "bufif0",
            GateKind::Notif1 => "notif1",
            GateKind::Notif0 => "notif0",
        }
    }

    /// The kind that a word writes; none at any other word.
    pub fn from_keyword(word: &[u8]) -> Option<GateKind>
        ensures { result ≡ gate_kind_of word.now }
    {
        GateKind::ALL
            .iter()
            .copied()
            .find(|kind| kind.keyword().as_bytes() == word)
    }
}

/// Whether a gate of this kind may have this many inputs: `and`, `nand`, `or`, `nor`, `xor` and `xnor` take 1 to 64
/// (own), `buf` and `not` one, the three-state gates two, data and control.
pub fn fits(kind: GateKind, inputs: usize) -> bool
    ensures { result ≡ takes_inputs kind inputs }
{
    match kind {
        GateKind::Buf | GateKind::Not => inputs == 1,
        GateKind::Bufif1 | GateKind::Bufif0 | GateKind::Notif1 | GateKind::Notif0 => inputs == 2,
        _ => 1 <= inputs && inputs <= MAX_INPUTS,
    }
}

/// Whether a gate of this kind may have a turn-off delay: the three-state gates alone (IEEE 1364-2005, 7.14).
pub fn takes_off(kind: GateKind) -> bool
    ensures { result ≡ takes_off kind }
{
    match kind {
        GateKind::Bufif1 | GateKind::Bufif0 | GateKind::Notif1 | GateKind::Notif0 => true,
        _ => false,
    }
}

// The first kinds are those whose inputs are all alike. What such a gate gives is found by a table, without a branch for its
// kind, since the gates of a netlist come in no order that a processor could guess: of each kind, in their order, what it gives
// for inputs of each summary (IEEE 1364-2005, 7.2 and 7.3).
static RESULTS: [Value; 128] = [
    // `and`
    Value::One,
    Value::Zero,
    Value::One,
    Value::Zero,
    Value::One,
    Value::Zero,
    Value::One,
    Value::Zero,
    Value::Unknown,
    Value::Zero,
    Value::Unknown,
    Value::Zero,
    Value::Unknown,
    Value::Zero,
    Value::Unknown,
    Value::Zero,
    // `nand`
    Value::Zero,
    Value::One,
    Value::Zero,
    Value::One,
    Value::Zero,
    Value::One,
    Value::Zero,
    Value::One,
    Value::Unknown,
    Value::One,
    Value::Unknown,
    Value::One,
    Value::Unknown,
    Value::One,
    Value::Unknown,
    Value::One,
    // `or`
    Value::Zero,
    Value::Zero,
    Value::One,
    Value::One,
    Value::Zero,
    Value::Zero,
    Value::One,
    Value::One,
    Value::Unknown,
    Value::Unknown,
    Value::One,
    Value::One,
    Value::Unknown,
    Value::Unknown,
    Value::One,
    Value::One,
    // `nor`
    Value::One,
    Value::One,
    Value::Zero,
    Value::Zero,
    Value::One,
    Value::One,
    Value::Zero,
    Value::Zero,
    Value::Unknown,
    Value::Unknown,
    Value::Zero,
    Value::Zero,
    Value::Unknown,
    Value::Unknown,
    Value::Zero,
    Value::Zero,
    // `xor`
    Value::Zero,
    Value::Zero,
    Value::Zero,
    Value::Zero,
    Value::One,
    Value::One,
    Value::One,
    Value::One,
    Value::Unknown,
    Value::Unknown,
    Value::Unknown,
    Value::Unknown,
    Value::Unknown,
    Value::Unknown,
    Value::Unknown,
    Value::Unknown,
    // `xnor`
    Value::One,
    Value::One,
    Value::One,
    Value::One,
    Value::Zero,
    Value::Zero,
    Value::Zero,
    Value::Zero,
    Value::Unknown,
    Value::Unknown,
    Value::Unknown,
    Value::Unknown,
    Value::Unknown,
    Value::Unknown,
    Value::Unknown,
    Value::Unknown,
    // `buf`
    Value::One,
    Value::Zero,
    Value::One,
    Value::Zero,
    Value::One,
    Value::Zero,
    Value::One,
    Value::Zero,
    Value::Unknown,
    Value::Zero,
    Value::Unknown,
    Value::Zero,
    Value::Unknown,
    Value::Zero,
    Value::Unknown,
    Value::Zero,
    // `not`
    Value::Zero,
    Value::One,
    Value::Zero,
    Value::One,
    Value::Zero,
    Value::One,
    Value::Zero,
    Value::One,
    Value::Unknown,
    Value::One,
    Value::Unknown,
    Value::One,
    Value::Unknown,
    Value::One,
    Value::Unknown,
    Value::One,
];

/// What a gate gives for its inputs, a z among them acting as x. A three-state gate whose control is x or z gives x
/// (own; IEEE 1364-2005, 7.4 writes L or H where the data is known).
#[inline(always)]
#[tactic(auto, using(crate::proofs::Readings::two_values))]
pub fn gate_value(kind: GateKind, inputs: &Inputs) -> Value
    requires { IsTrue (takes_inputs kind (length inputs.now)) }
    ensures { result ≡ gate_of kind inputs.now }
{
    match kind {
        GateKind::Bufif1 => controlled_value(
            Value::One,
            inputs.first().as_input(),
            inputs.second(),
        ),
        GateKind::Bufif0 => controlled_value(
            Value::Zero,
            inputs.first().as_input(),
            inputs.second(),
        ),
        GateKind::Notif1 => controlled_value(
            Value::One,
            inputs.first().inverted(),
            inputs.second(),
        ),
        GateKind::Notif0 => controlled_value(
            Value::Zero,
            inputs.first().inverted(),
            inputs.second(),
        ),
        _ => result_of(kind as usize, inputs.summary()),
    }
}

/// What a gate of the kind of this number gives for inputs of this summary.
#[inline(always)]
fn result_of(kind: usize, summary: u8) -> Value
    requires alike { kind < 8 }
    requires low { summary < 16 }
    ensures { result ≡ result_of kind summary }
{
    RESULTS[16 * kind + summary as usize]
}

/// What a three-state gate gives that would pass this value under this control, which is 0 or 1 where it is active.
#[inline(always)]
fn controlled_value(active: Value, value: Value, control: Value) -> Value
    ensures { result ≡ controlled active value (reading control) }
{
    let control = control.as_input();
    if control == active {
        value
    } else if control == active.inverted() {
        Value::HighZ
    } else {
        Value::Unknown
    }
}
