//! Stimulus points in order of time.

ghost use Rattle.std.specs.Prelude.{◌≡◌, ◌≤◌, ◌==◌, not, true, false, nat_le, nat_lt, OnOk, OnErr, IfOk, IfErr, is_ok, length};
ghost use Rattle.std.specs.Ordering.{nat_cmp};
ghost use Rattle.std.specs.BTreeMap.{insert_entry};
ghost use Rattle.std.specs.List.{filter};
ghost use Rattle.std.specs.List.Sorted.{IsPartitionPoint};
ghost use Rattle.design.specs.kept.Lawful.{AreRising};
ghost use Rattle.design.specs.kept.PointPlaces.{IsPlaceOf, IsPlaceFor};
ghost use Rattle.design.specs.Netlist.{has_point, stimulus};
ghost use Rattle.design.specs.kept.Netlist.{next_point};

use fourstate::Value;
use std::alloc::AllocError;

/// The value from the latest point at or before the moment `t`, x without one.
#[tactic(auto, using(crate::proofs::PointLemmas::stimulus_none))]
pub fn value_at(points: &[(u64, Value)], t: u64) -> Value
    requires { AreRising points.now }
    ensures { result ≡ stimulus points.now t }
{
    let count = count_until(points, t);
    if count == 0 {
        Value::Unknown
    } else {
        points[count - 1].1
    }
}

/// Whether a point is at the moment `t`.
pub fn is_set(points: &[(u64, Value)], t: u64) -> bool
    requires { AreRising points.now }
    ensures { result ≡ has_point points.now t }
{
    place_of(points, t).is_ok()
}

/// The moment of the first point after the moment `t`.
pub fn next_after(points: &[(u64, Value)], t: u64) -> Option<u64>
    requires { AreRising points.now }
    ensures { result ≡ next_point points.now t }
{
    let count = count_until(points, t);
    match points.get(count) {
        Some(point) => Some(point.0),
        None => None,
    }
}

/// Sets the value from the moment `t` on, until the next point.
pub fn set_in_order(points: &mut Vec<(u64, Value)>, t: u64, value: Value) -> Result<(), AllocError>
    requires { AreRising points.old.items }
    ensures ok { OnOk result (points.new.items ≡ insert_entry nat_cmp points.old.items t value) }
    ensures err { OnErr result (points.new.items ≡ points.old.items) }
{
    match place_of(points, t) {
        Ok(place) => points[place] = (t, value),
        Err(place) => points.insert(place, (t, value))?,
    }
    Ok(())
}

/// Takes the point at the moment `t` away.
pub fn remove_at(points: &mut Vec<(u64, Value)>, t: u64)
    ensures { points.new.items ≡ filter (λ point. not (point.0 == t)) points.old.items }
{
    points.retain(|point| point.0 != t);
}

/// The place of the point at the moment `t`, or else the place at which one keeps the order.
#[tactic(auto, using(crate::proofs::PointLemmas::has_point_at, crate::proofs::PointLemmas::has_point_past))]
fn place_of(points: &[(u64, Value)], t: u64) -> Result<usize, usize>
    requires { AreRising points.now }
    ensures set { is_ok result ≡ has_point points.now t }
    ensures found { IfOk result (λ place. IsPlaceOf points.now t place) }
    ensures absent { IfErr result (λ place. IsPlaceFor points.now t place) }
{
    let place = count_before(points, t);
    if place < points.len() && points[place].0 == t {
        Ok(place)
    } else {
        Err(place)
    }
}

/// How many points are before the moment `t`.
fn count_before(points: &[(u64, Value)], t: u64) -> usize
    requires { AreRising points.now }
    ensures within { result ≤ length points.now }
    ensures split { IsPartitionPoint (λ p. nat_lt p.0 t ≡ true) (λ p. nat_lt p.0 t ≡ false) points.now result }
{
    points.partition_point(|point| point.0 < t)
}

/// How many points are at or before the moment `t`.
pub fn count_until(points: &[(u64, Value)], t: u64) -> usize
    requires { AreRising points.now }
    ensures within { result ≤ length points.now }
    ensures split { IsPartitionPoint (λ p. nat_le p.0 t ≡ true) (λ p. nat_le p.0 t ≡ false) points.now result }
{
    points.partition_point(|point| point.0 <= t)
}
