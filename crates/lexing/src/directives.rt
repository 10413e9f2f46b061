//! The directive `` `timescale `` (IEEE 1364-2005, 19.8).

ghost use Rattle.std.specs.Prelude.{◌≡◌, ◌<◌, ◌≤◌, length, IfSome};
ghost use Rattle.std.specs.Option.{option_map};
ghost use Rattle.lexing.specs.Directives.{magnitude, unit, literal, precision, literals, directive, timescale_of};

use crate::spaces::behind_white;
use fourstate::{Magnitude, TimeUnit, Unit};

/// `1`, `10` or `100` in front, and the bytes behind it.
#[tactic(auto, using(std::proofs::lemmas::List::take_rest), unfolding(crate::specs::Directives::magnitude))]
fn magnitude(bytes: &[u8]) -> Option<(Magnitude, &[u8])>
    ensures value { option_map (λ r. (r.0, r.1.now)) result ≡ magnitude bytes.now }
    ensures within { IfSome result (λ r. length r.1.now < length bytes.now) }
{
    if bytes.starts_with(b"100") {
        Some((Magnitude::Hundred, &bytes[3..]))
    } else if bytes.starts_with(b"10") {
        Some((Magnitude::Ten, &bytes[2..]))
    } else if bytes.starts_with(b"1") {
        Some((Magnitude::One, &bytes[1..]))
    } else {
        None
    }
}

/// A unit in front, and the bytes behind it.
#[tactic(auto, using(std::proofs::lemmas::List::take_rest), unfolding(crate::specs::Directives::unit))]
fn unit(bytes: &[u8]) -> Option<(Unit, &[u8])>
    ensures value { option_map (λ r. (r.0, r.1.now)) result ≡ unit bytes.now }
    ensures within { IfSome result (λ r. length r.1.now < length bytes.now) }
{
    if bytes.starts_with(b"s") {
        Some((Unit::Second, &bytes[1..]))
    } else if bytes.starts_with(b"ms") {
        Some((Unit::Millisecond, &bytes[2..]))
    } else if bytes.starts_with(b"us") {
        Some((Unit::Microsecond, &bytes[2..]))
    } else if bytes.starts_with(b"ns") {
        Some((Unit::Nanosecond, &bytes[2..]))
    } else if bytes.starts_with(b"ps") {
        Some((Unit::Picosecond, &bytes[2..]))
    } else if bytes.starts_with(b"fs") {
        Some((Unit::Femtosecond, &bytes[2..]))
    } else {
        None
    }
}

/// A magnitude and a unit, white space before each where there is some.
#[tactic(auto, using(std::proofs::lemmas::List::take_rest), unfolding(crate::specs::Directives::literal))]
fn literal(bytes: &[u8]) -> Option<(TimeUnit, &[u8])>
    ensures value { option_map (λ r. (r.0, r.1.now)) result ≡ literal bytes.now }
    ensures within { IfSome result (λ r. length r.1.now < length bytes.now) }
{
    let (magnitude, rest) = magnitude(behind_white(bytes))?;
    let (unit, rest) = unit(behind_white(rest))?;
    Some((TimeUnit { magnitude, unit }, rest))
}

/// A slash and a literal, white space before each where there is some.
#[tactic(auto, using(std::proofs::lemmas::List::take_rest), unfolding(crate::specs::Directives::precision))]
fn precision(bytes: &[u8]) -> Option<(TimeUnit, &[u8])>
    ensures value { option_map (λ r. (r.0, r.1.now)) result ≡ precision bytes.now }
    ensures within { IfSome result (λ r. length r.1.now < length bytes.now) }
{
    let rest = behind_white(bytes);
    if rest.starts_with(b"/") {
        literal(&rest[1..])
    } else {
        None
    }
}

/// A literal, a slash and a literal: what the first one says, and the bytes behind the second one.
#[tactic(auto, using(std::proofs::lemmas::List::take_rest), unfolding(crate::specs::Directives::literals))]
fn literals(bytes: &[u8]) -> Option<(TimeUnit, &[u8])>
    ensures value { option_map (λ r. (r.0, r.1.now)) result ≡ literals bytes.now }
    ensures within { IfSome result (λ r. length r.1.now < length bytes.now) }
{
    let (unit, rest) = literal(bytes)?;
    let (_, rest) = precision(rest)?;
    Some((unit, rest))
}

/// A whole directive in front: its first literal, and the bytes behind its second one.
#[tactic(auto, using(std::proofs::lemmas::List::take_rest), unfolding(crate::specs::Directives::directive))]
pub fn directive(bytes: &[u8]) -> Option<(TimeUnit, &[u8])>
    ensures value { option_map (λ r. (r.0, r.1.now)) result ≡ directive bytes.now }
    ensures within { IfSome result (λ r. length r.1.now < length bytes.now) }
{
    if !bytes.starts_with(b"`timescale") {
        return None;
    }
    let rest = &bytes[10..];
    if behind_white(rest).len() < rest.len() {
        literals(rest)
    } else {
        None
    }
}

/// The time unit of a directive `` `timescale `` in front of the bytes: its first number and unit. None where the bytes
/// begin with no whole directive.
pub fn timescale(bytes: &[u8]) -> Option<TimeUnit>
    ensures { result ≡ timescale_of bytes.now }
{
    match directive(bytes) {
        Some((unit, _)) => Some(unit),
        None => None,
    }
}
