//! The points of a net, one after another.

ghost use Rattle.std.specs.Prelude.{◌≡◌, ◌++◌, length};
ghost use Rattle.std.specs.Iterator.{YieldsFirst, item_count};
ghost use Rattle.design.specs.kept.Pieces.{AreFilled, points_in, points_of};

use crate::piece::{Piece, list_of};
use fourstate::Value;
use std::marker::Model;

/// The stimulus points of a net in order of time: each a moment, in time units, and the value from then on. Each point takes
/// the same time, however many there are. Contracts see the points that are left.
#[derive(Drop)]
pub struct Points<'a> {
    // What is left of a piece, and the pieces behind it.
    points: &'a [(u64, Value)],
    pieces: &'a [Piece],
}

impl<'a> Model for Points<'a> {
    ghost use Rattle.std.specs.Prelude.{ℕ, List, ◌++◌};
    ghost use Rattle.fourstate.specs.declared.value.Value.{Value as Level};
    ghost use Rattle.design.specs.kept.Pieces.{AreFilled, points_in, points_of};

    ghost Value = { List (ℕ × Level) };

    ghost view = { λ a. a.points.now ++ points_of a.pieces.now };

    ghost invariant = { λ a. AreFilled points_in a.pieces.now };
}

impl<'a> Points<'a> {
    /// The points of all pieces.
    pub(crate) fn new(pieces: &'a [Piece]) -> Points<'a>
        requires { AreFilled points_in pieces.now }
        ensures { result ≡ points_of pieces.now }
    {
        Points {
            points: &[],
            pieces,
        }
    }
}

impl<'a> Iterator for Points<'a> {
    type Item = (u64, Value);

    ghost next_gives = { YieldsFirst (λ points. points) };

    ghost remaining = { item_count (λ points. points) };

    #[inline]
    fn next(&mut self) -> Option<(u64, Value)> {
        let (points, pieces) = filled(self.points, self.pieces);
        let (first, rest) = points.split_first()?;
        self.points = rest;
        self.pieces = pieces;
        Some(*first)
    }
}

/// The same points, with those of the first piece in front where none were.
#[inline]
fn filled<'a>(points: &'a [(u64, Value)], pieces: &'a [Piece]) -> (&'a [(u64, Value)], &'a [Piece])
    requires { AreFilled points_in pieces.now }
    ensures same { result.0.now ++ points_of result.1.now ≡ points.now ++ points_of pieces.now }
    ensures filled { AreFilled points_in result.1.now }
    ensures over { length result.0.now ≡ 0 → length result.1.now ≡ 0 }
{
    if !points.is_empty() {
        return (points, pieces);
    }
    match pieces.split_first() {
        Some((piece, rest)) => (list_of(piece), rest),
        None => (points, pieces),
    }
}
