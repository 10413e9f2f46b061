//! Lists of stimulus points.

ghost use Rattle.std.specs.Prelude.{◌≡◌, ◌==◌, [], not, IfOk, length};
ghost use Rattle.std.specs.Ordering.{nat_cmp};
ghost use Rattle.std.specs.BTreeMap.{insert_entry};
ghost use Rattle.std.specs.List.{filter};
ghost use Rattle.design.specs.kept.Lawful.{AreRising};
ghost use Rattle.design.specs.Netlist.{has_point, stimulus};
ghost use Rattle.design.specs.kept.Netlist.{next_point};
ghost use Rattle.design.specs.kept.Pieces.{AreFilled, points_in, points_of};

use crate::piece::Piece;
use crate::pieces::{self, first_at, home_of};
use crate::points::{is_set, next_after, value_at};
use fourstate::Value;
use std::alloc::{AllocError, Global};
use std::marker::Model;

/// Stimulus points in order of time. A copy shares them in pieces; a change of one point copies its piece, where another
/// list shares it, and the pointers to the others. Contracts see the list.
#[derive(Debug, Drop)]
pub struct PointList {
    pieces: Vec<Piece>,
    len: usize,
}

impl Model for PointList {
    ghost use Rattle.std.specs.Prelude.{◌≡◌, ℕ, List, length};
    ghost use Rattle.fourstate.specs.declared.value.Value.{Value as Level};
    ghost use Rattle.design.specs.kept.Pieces.{AreFilled, points_in, points_of};

    ghost Value = { List (ℕ × Level) };

    ghost view = { λ a. points_of a.pieces.items };

    ghost invariant = { λ a. AreFilled points_in a.pieces.items × (a.len ≡ length (points_of a.pieces.items)) };
}

impl PointList {
    /// No points. It takes no memory.
    pub fn new(alloc: Global) -> PointList
        ensures { result ≡ [] }
    {
        PointList {
            pieces: Vec::new(alloc),
            len: 0,
        }
    }

    /// How many points there are.
    pub fn len(&self) -> usize
        ensures { result ≡ length self.now }
    {
        self.len
    }

    /// The value from the latest point at or before the moment `t`, x without one.
    pub fn value_at(&self, t: u64) -> Value
        requires { AreRising self.now }
        ensures { result ≡ stimulus self.now t }
    {
        if self.pieces.is_empty() {
            return Value::Unknown;
        }
        let home = home_of(&self.pieces, t);
        value_at(&self.pieces[home], t)
    }

    /// Whether a point is at the moment `t`.
    pub fn has_point(&self, t: u64) -> bool
        requires { AreRising self.now }
        ensures { result ≡ has_point self.now t }
    {
        if self.pieces.is_empty() {
            return false;
        }
        let home = home_of(&self.pieces, t);
        is_set(&self.pieces[home], t)
    }

    /// The moment of the first point after the moment `t`.
    pub fn next_after(&self, t: u64) -> Option<u64>
        requires { AreRising self.now }
        ensures { result ≡ next_point self.now t }
    {
        if self.pieces.is_empty() {
            return None;
        }
        let home = home_of(&self.pieces, t);
        match next_after(&self.pieces[home], t) {
            Some(next) => Some(next),
            None => first_at(&self.pieces, home + 1),
        }
    }

    /// The pieces that have the points.
    pub(crate) fn pieces(&self) -> &[Piece]
        ensures points { points_of result.now ≡ self.now }
        ensures filled { AreFilled points_in result.now }
    {
        &self.pieces
    }

    /// The points with the value from the moment `t` on, until the next point.
    pub fn with_point(self, t: u64, value: Value) -> Result<PointList, AllocError>
        requires { AreRising self }
        ensures { IfOk result (λ list. list ≡ insert_entry nat_cmp self t value) }
    {
        let added = usize::from(!self.has_point(t));
        let len = self.len.checked_add(added).ok_or(AllocError)?;
        let mut pieces = self.pieces;
        pieces::set(&mut pieces, t, value)?;
        Ok(PointList { pieces, len })
    }

    /// The points without the one at the moment `t`.
    pub fn without_point(self, t: u64) -> Result<PointList, AllocError>
        requires { AreRising self }
        ensures { IfOk result (λ list. list ≡ filter (λ point. not (point.0 == t)) self) }
    {
        let len = self.len - usize::from(self.has_point(t));
        let mut pieces = self.pieces;
        pieces::remove(&mut pieces, t)?;
        Ok(PointList { pieces, len })
    }
}

impl Clone for PointList {
    ghost use Rattle.std.specs.Prelude.{◌≡◌};

    ghost is_clone = { λ old new. new ≡ old };

    fn clone(&self) -> Result<PointList, AllocError> {
        let pieces = self.pieces.clone()?;
        Ok(PointList {
            pieces,
            len: self.len,
        })
    }
}
