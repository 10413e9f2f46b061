//! Where two lists of stimulus points part.

ghost use Rattle.std.specs.Prelude.{◌≡◌, ◌<◌, ◌≤◌, ◌++◌, ℕ, true, false, nat_le, nat_lt, IfSome, length, drop, take, slice_get};
ghost use Rattle.std.specs.List.{filter};
ghost use Rattle.design.specs.kept.Lawful.{AreRising};
ghost use Rattle.design.specs.kept.Pieces.{AreFilled, points_in, points_of};

use crate::piece::{Piece, list_of};
use crate::pieces::home_of;
use crate::points::count_until;
use fourstate::Value;

/// The moment before which two lists have the same points after the moment `t`; none where all of these are the same. Points from
/// the moment `end` on are not all compared: where the lists are the same before it, it gives one from `end` on.
pub(crate) fn part_after(one: &[Piece], other: &[Piece], t: u64, end: u64) -> Option<u64>
    requires rising { AreRising (points_of one.now) }
    requires other_rising { AreRising (points_of other.now) }
    requires filled { AreFilled points_in one.now }
    requires other_filled { AreFilled points_in other.now }
    ensures { (m : ℕ) → IfSome result (λ u. m < u) → filter (λ p. nat_le p.0 m) (filter (λ p. nat_lt t p.0) (points_of one.now))
        ≡ filter (λ p. nat_le p.0 m) (filter (λ p. nat_lt t p.0) (points_of other.now)) }
{
    let (points, pieces) = later_part(one, t);
    let (other_points, other_pieces) = later_part(other, t);
    part(points, pieces, other_points, other_pieces, end)
}

/// The points after the moment `t`: those of the piece where one at it is or belongs, and the pieces behind it.
fn later_part(pieces: &[Piece], t: u64) -> (&[(u64, Value)], &[Piece])
    requires rising { AreRising (points_of pieces.now) }
    requires filled { AreFilled points_in pieces.now }
    ensures { result.0.now ++ points_of result.1.now ≡ filter (λ p. nat_lt t p.0) (points_of pieces.now) }
{
    if pieces.is_empty() {
        return (&[], &[]);
    }
    let home = home_of(pieces, t);
    let points = list_of(&pieces[home]);
    let count = count_until(points, t);
    (
        points_behind(points, count),
        pieces_behind(pieces, home + 1),
    )
}

/// The points behind the first ones, so many.
fn points_behind(points: &[(u64, Value)], count: usize) -> &[(u64, Value)]
    requires { count ≤ length points.now }
    ensures { result.now ≡ drop count points.now }
{
    &points[count..]
}

/// The pieces behind the first ones, so many.
fn pieces_behind(pieces: &[Piece], count: usize) -> &[Piece]
    requires { count ≤ length pieces.now }
    ensures { result.now ≡ drop count pieces.now }
{
    &pieces[count..]
}

/// The moment before which two lists, each some points and the pieces behind them, have the same points; none where they are
/// the same. Pieces that begin at the moment `end` or later are not compared.
fn part(
    points: &[(u64, Value)],
    pieces: &[Piece],
    other_points: &[(u64, Value)],
    other_pieces: &[Piece],
    end: u64,
) -> Option<u64>
    requires rising { AreRising (points.now ++ points_of pieces.now) }
    requires other_rising { AreRising (other_points.now ++ points_of other_pieces.now) }
    ensures { (m : ℕ) → IfSome result (λ u. m < u) → filter (λ p. nat_le p.0 m) (points.now ++ points_of pieces.now)
        ≡ filter (λ p. nat_le p.0 m) (other_points.now ++ points_of other_pieces.now) }
{
    let mut one = points;
    let mut more = pieces;
    let mut other = other_points;
    let mut others = other_pieces;
    loop {
        let count = count_alike(one, other, end);
        one = points_behind(one, count);
        other = points_behind(other, count);
        if is_to_fill(one, more) {
            one = list_of(&more[0]);
            more = pieces_behind(more, 1);
        } else if is_to_fill(other, others) {
            other = list_of(&others[0]);
            others = pieces_behind(others, 1);
        } else {
            return first_of(one, other);
        }
    }
}

/// Whether a list goes on with the first piece, since it has no points before.
fn is_to_fill(points: &[(u64, Value)], pieces: &[Piece]) -> bool
    ensures empty { result ≡ true → length points.now ≡ 0 }
    ensures more { result ≡ true → 0 < length pieces.now }
    ensures over { result ≡ false → length points.now ≡ 0 → length pieces.now ≡ 0 }
{
    points.is_empty() && !pieces.is_empty()
}

/// With how many points two slices begin alike; 0 where both begin at the moment `end` or later.
fn count_alike(one: &[(u64, Value)], other: &[(u64, Value)], end: u64) -> usize
    ensures within { result ≤ length one.now }
    ensures within_other { result ≤ length other.now }
    ensures alike { take result one.now ≡ take result other.now }
{
    if begins_late(one, end) && begins_late(other, end) {
        return 0;
    }
    let most = one.len().min(other.len());
    for i in 0..most {
        if !is_same(one[i], other[i]) {
            return i;
        }
    }
    most
}

/// Whether a slice has points, all of them at the moment `end` or later.
fn begins_late(points: &[(u64, Value)], end: u64) -> bool {
    match points.first() {
        Some(point) => end <= point.0,
        None => false,
    }
}

/// Whether two points are the same.
pub(crate) fn is_same(one: (u64, Value), other: (u64, Value)) -> bool
    ensures { result ≡ true → one ≡ other }
{
    one.0 == other.0 && one.1 == other.1
}

/// The moment of the earlier one of two points, each the first of a slice, which may have none.
fn first_of(one: &[(u64, Value)], other: &[(u64, Value)]) -> Option<u64>
    ensures one { (m : ℕ) → IfSome result (λ u. m < u) → IfSome (slice_get one.now 0) (λ p. m < p.0) }
    ensures other { (m : ℕ) → IfSome result (λ u. m < u) → IfSome (slice_get other.now 0) (λ p. m < p.0) }
{
    match one.first() {
        None => match other.first() {
            None => None,
            Some(point) => Some(point.0),
        },
        Some(point) => match other.first() {
            Some(second) if second.0 < point.0 => Some(second.0),
            _ => Some(point.0),
        },
    }
}
