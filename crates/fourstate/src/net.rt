//! Nets (IEEE 1364-2005, 4.6).

ghost use Rattle.std.specs.Prelude.{◌≡◌};
ghost use Rattle.fourstate.specs.Nets.{net_of, pulled_of, rule_of, wand_of, wire_of, wor_of};
ghost use Rattle.fourstate.specs.kept.Nets.{passes_lone_driver};
ghost use Rattle.fourstate.specs.Keywords.{net_keyword, net_kind_of};

use crate::survey::Survey;
use crate::value::Value;

/// The kinds of nets.
#[derive(Clone, Copy, Debug, PartialEq, Eq, Hash)]
pub enum NetKind {
    Wire,
    Tri,
    Wand,
    Triand,
    Wor,
    Trior,
    Tri0,
    Tri1,
}

impl NetKind {
    /// Every kind.
    pub const ALL: [NetKind; 8] = [
        NetKind::Wire,
        NetKind::Tri,
        NetKind::Wand,
        NetKind::Triand,
        NetKind::Wor,
        NetKind::Trior,
        NetKind::Tri0,
        NetKind::Tri1,
    ];

    /// The word that writes the kind (IEEE 1364-2005, annex B).
    pub fn keyword(self) -> &'static str
        ensures { result.now ≡ net_keyword self }
    {
        match self {
            NetKind::Wire => "wire",
            NetKind::Tri => "tri",
            NetKind::Wand => "wand",
            NetKind::Triand => "triand",
            NetKind::Wor => "wor",
            NetKind::Trior => "trior",
            NetKind::Tri0 => "tri0",
            NetKind::Tri1 => "tri1",
        }
    }

    /// The kind that a word writes; none at any other word.
    pub fn from_keyword(word: &[u8]) -> Option<NetKind>
        ensures { result ≡ net_kind_of word.now }
    {
        NetKind::ALL
            .iter()
            .copied()
            .find(|kind| kind.keyword().as_bytes() == word)
    }

    /// The rule by which it resolves its drivers.
    #[inline(always)]
    pub fn rule(self) -> NetRule
        ensures { result ≡ rule_of self }
    {
        match self {
            NetKind::Wire | NetKind::Tri => NetRule::Wire,
            NetKind::Wand | NetKind::Triand => NetRule::Wand,
            NetKind::Wor | NetKind::Trior => NetRule::Wor,
            NetKind::Tri0 => NetRule::Pulldown,
            NetKind::Tri1 => NetRule::Pullup,
        }
    }

    /// Whether a net of this kind always has what its driver gives, where it has one alone.
    #[tactic(auto, unfolding(crate::specs::kept::Nets::passes_lone_driver))]
    pub fn passes_lone_driver(self) -> bool
        ensures { result ≡ passes_lone_driver self }
    {
        match self {
            NetKind::Wire | NetKind::Tri => true,
            NetKind::Wand | NetKind::Triand => true,
            NetKind::Wor | NetKind::Trior => true,
            NetKind::Tri0 | NetKind::Tri1 => false,
        }
    }
}

/// The rules by which nets resolve their drivers (IEEE 1364-2005, 4.6.1, 4.6.2 and 4.6.4).
#[derive(Clone, Copy, Debug, PartialEq, Eq, Hash)]
pub enum NetRule {
    /// Different values give x.
    Wire,
    /// A 0 gives 0.
    Wand,
    /// A 1 gives 1.
    Wor,
    /// Where nothing drives the net it is 0; else as a wire.
    Pulldown,
    /// Where nothing drives the net it is 1; else as a wire.
    Pullup,
}

/// The value of a net from the values of its drivers. Without one it is z, or what its kind pulls it to (IEEE 1364-2005,
/// 4.6.1, 4.6.2 and 4.6.4).
#[inline(always)]
pub fn resolve(kind: NetKind, values: &[Value]) -> Value
    ensures { result ≡ net_of kind values.now }
{
    let seen = Survey::of(values);
    match kind.rule() {
        NetRule::Wire => wire_value(&seen),
        NetRule::Wand => wand_value(&seen),
        NetRule::Wor => wor_value(&seen),
        NetRule::Pulldown => pulled_value(&seen, Value::Zero),
        NetRule::Pullup => pulled_value(&seen, Value::One),
    }
}

#[inline(always)]
fn wire_value(seen: &Survey) -> Value
    ensures { result ≡ wire_of seen.now.zero seen.now.one seen.now.unknown }
{
    if seen.unknown || (seen.zero && seen.one) {
        Value::Unknown
    } else if seen.zero {
        Value::Zero
    } else if seen.one {
        Value::One
    } else {
        Value::HighZ
    }
}

#[inline(always)]
fn wand_value(seen: &Survey) -> Value
    ensures { result ≡ wand_of seen.now.zero seen.now.one seen.now.unknown }
{
    if seen.zero {
        Value::Zero
    } else if seen.unknown {
        Value::Unknown
    } else if seen.one {
        Value::One
    } else {
        Value::HighZ
    }
}

#[inline(always)]
fn wor_value(seen: &Survey) -> Value
    ensures { result ≡ wor_of seen.now.zero seen.now.one seen.now.unknown }
{
    if seen.one {
        Value::One
    } else if seen.unknown {
        Value::Unknown
    } else if seen.zero {
        Value::Zero
    } else {
        Value::HighZ
    }
}

#[inline(always)]
fn pulled_value(seen: &Survey, pull: Value) -> Value
    ensures { result ≡ pulled_of pull seen.now.zero seen.now.one seen.now.unknown }
{
    if seen.zero || seen.one || seen.unknown {
        wire_value(seen)
    } else {
        pull
    }
}
