//! Lists of stimulus points in pieces.

ghost use Rattle.std.specs.Prelude.{◌≡◌, ◌<◌, ◌==◌, not, OnOk, length, option_map, slice_get};
ghost use Rattle.std.specs.Ordering.{nat_cmp};
ghost use Rattle.std.specs.BTreeMap.{insert_entry};
ghost use Rattle.std.specs.List.{filter};
ghost use Rattle.design.specs.kept.Lawful.{AreRising};
ghost use Rattle.design.specs.kept.Pieces.{AreFilled, HasBegun, IsHome, IsLonger, first_in, points_in, points_of};

use crate::piece::{self, MAX_PIECE, Piece};
use fourstate::Value;
use std::alloc::AllocError;
use std::sync::Arc;

/// The piece where a point at the moment `t` is or belongs.
pub(crate) fn home_of(pieces: &[Piece], t: u64) -> usize
    requires rising { AreRising (points_of pieces.now) }
    requires filled { AreFilled points_in pieces.now }
    requires some { 0 < length pieces.now }
    ensures within { result < length pieces.now }
    ensures home { IsHome points_in t pieces.now result }
    ensures begun { HasBegun points_in t pieces.now result }
{
    let begun = pieces.partition_point(|piece| piece::begins_by(piece, t));
    begun.saturating_sub(1)
}

/// The moment of the first point of the piece at a place, if there is one.
pub(crate) fn first_at(pieces: &[Piece], place: usize) -> Option<u64>
    ensures { result ≡ option_map (λ point. point.0) (first_in points_in (slice_get pieces.now place)) }
{
    let piece = pieces.get(place)?;
    match piece.first() {
        Some(point) => Some(point.0),
        None => None,
    }
}

/// Sets the value from the moment `t` on, until the next point. A piece that gets too long is halved.
pub(crate) fn set(pieces: &mut Vec<Piece>, t: u64, value: Value) -> Result<(), AllocError>
    requires rising { AreRising (points_of pieces.old.items) }
    requires filled { AreFilled points_in pieces.old.items }
    ensures filled { OnOk result (AreFilled points_in pieces.new.items) }
    ensures set { OnOk result (points_of pieces.new.items ≡ insert_entry nat_cmp (points_of pieces.old.items) t value) }
{
    if pieces.is_empty() {
        return begin(pieces, t, value);
    }
    let home = home_of(pieces, t);
    piece::set(&mut pieces[home], t, value)?;
    if pieces[home].len() > MAX_PIECE {
        halve(pieces, home)?;
    }
    Ok(())
}

/// The first point.
fn begin(pieces: &mut Vec<Piece>, t: u64, value: Value) -> Result<(), AllocError>
    requires { length pieces.old.items ≡ 0 }
    ensures filled { OnOk result (AreFilled points_in pieces.new.items) }
    ensures set { OnOk result (points_of pieces.new.items ≡ insert_entry nat_cmp (points_of pieces.old.items) t value) }
{
    let alloc = *pieces.allocator();
    let mut points = Vec::new(alloc);
    points.push((t, value))?;
    let piece = Arc::new(alloc, points)?;
    pieces.push(piece)?;
    Ok(())
}

/// Makes two pieces of one that is too long.
fn halve(pieces: &mut Vec<Piece>, at: usize) -> Result<(), AllocError>
    requires filled { AreFilled points_in pieces.old.items }
    requires within { at < length pieces.old.items }
    requires long { IsLonger points_in MAX_PIECE pieces.old.items at }
    ensures filled { OnOk result (AreFilled points_in pieces.new.items) }
    ensures same { OnOk result (points_of pieces.new.items ≡ points_of pieces.old.items) }
{
    let alloc = *pieces.allocator();
    let half = piece::halve(&mut pieces[at])?;
    let half = Arc::new(alloc, half)?;
    pieces.insert(at + 1, half)?;
    Ok(())
}

/// Takes the point at the moment `t` away. A piece that gets empty goes.
pub(crate) fn remove(pieces: &mut Vec<Piece>, t: u64) -> Result<(), AllocError>
    requires rising { AreRising (points_of pieces.old.items) }
    requires filled { AreFilled points_in pieces.old.items }
    ensures filled { OnOk result (AreFilled points_in pieces.new.items) }
    ensures removed { OnOk result (points_of pieces.new.items ≡ filter (λ point. not (point.0 == t)) (points_of pieces.old.items)) }
{
    if pieces.is_empty() {
        return Ok(());
    }
    let home = home_of(pieces, t);
    piece::remove(&mut pieces[home], t)?;
    if pieces[home].is_empty() {
        pieces.remove(home);
    }
    Ok(())
}
