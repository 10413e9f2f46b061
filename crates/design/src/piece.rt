//! A piece of a list of stimulus points.

ghost use Rattle.std.specs.Prelude.{◌≡◌, ◌<◌, ◌==◌, ◌++◌, not, IfOk, OnOk, length};
ghost use Rattle.std.specs.Ordering.{nat_cmp};
ghost use Rattle.std.specs.BTreeMap.{insert_entry};
ghost use Rattle.std.specs.List.{filter};
ghost use Rattle.design.specs.kept.Lawful.{AreRising};
ghost use Rattle.design.specs.kept.Pieces.{begins_by, points_in};

use crate::points::{remove_at, set_in_order};
use fourstate::Value;
use std::alloc::AllocError;
use std::sync::Arc;

/// The most points of a piece (own).
pub(crate) const MAX_PIECE: usize = 2_048;

/// Some points that follow one another, which copies share as a whole.
pub(crate) type Piece = Arc<Vec<(u64, Value)>>;

/// The points of a piece.
#[inline]
pub(crate) fn list_of(piece: &Piece) -> &[(u64, Value)]
    ensures { result.now ≡ points_in piece.now }
{
    piece
}

/// Whether the first point is at or before the moment `t`.
pub(crate) fn begins_by(piece: &Piece, t: u64) -> bool
    ensures { result ≡ begins_by t (points_in piece.now) }
{
    match piece.first() {
        Some(point) => point.0 <= t,
        None => false,
    }
}

/// Sets the value from the moment `t` on, until the next point.
pub(crate) fn set(piece: &mut Piece, t: u64, value: Value) -> Result<(), AllocError>
    requires { AreRising (points_in piece.old) }
    ensures { OnOk result (points_in piece.new ≡ insert_entry nat_cmp (points_in piece.old) t value) }
{
    set_in_order(Arc::make_mut(piece)?, t, value)?;
    Ok(())
}

/// Takes the point at the moment `t` away.
pub(crate) fn remove(piece: &mut Piece, t: u64) -> Result<(), AllocError>
    ensures { OnOk result (points_in piece.new ≡ filter (λ point. not (point.0 == t)) (points_in piece.old)) }
{
    remove_at(Arc::make_mut(piece)?, t);
    Ok(())
}

/// Takes the second half of a piece that is too long.
pub(crate) fn halve(piece: &mut Piece) -> Result<Vec<(u64, Value)>, AllocError>
    requires { MAX_PIECE < length (points_in piece.old) }
    ensures front { OnOk result (0 < length (points_in piece.new)) }
    ensures back { IfOk result (λ half. 0 < length half.items) }
    ensures all { IfOk result (λ half. points_in piece.new ++ half.items ≡ points_in piece.old) }
{
    let half = take_half(Arc::make_mut(piece)?)?;
    Ok(half)
}

fn take_half(points: &mut Vec<(u64, Value)>) -> Result<Vec<(u64, Value)>, AllocError>
    requires { MAX_PIECE < length points.old.items }
    ensures front { OnOk result (0 < length points.new.items) }
    ensures back { IfOk result (λ half. 0 < length half.items) }
    ensures all { IfOk result (λ half. points.new.items ++ half.items ≡ points.old.items) }
{
    let half = points.split_off(MAX_PIECE / 2)?;
    Ok(half)
}
