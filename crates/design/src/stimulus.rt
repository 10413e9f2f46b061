//! The stimulus of a net, which copies share.

ghost use Rattle.std.specs.Prelude.{◌≡◌, ◌<◌, ◌≤◌, ◌==◌, [], ℕ, not, IfOk, IfSome, length};
ghost use Rattle.std.specs.Ordering.{nat_cmp};
ghost use Rattle.std.specs.BTreeMap.{insert_entry};
ghost use Rattle.std.specs.List.{filter};
ghost use Rattle.design.specs.kept.Lawful.{AreRising};
ghost use Rattle.design.specs.Netlist.{has_point, stimulus};
ghost use Rattle.design.specs.kept.Netlist.{next_point};
ghost use Rattle.design.specs.kept.Pieces.{AreFilled, points_in, points_of};

use crate::net_points::Points;
use crate::parting::{is_same, part_after};
use crate::piece::Piece;
use crate::point_list::PointList;
use fourstate::Value;
use std::alloc::{AllocError, Global};
use std::marker::Model;
use std::sync::Arc;

/// Stimulus points in order of time. Contracts see the list.
#[derive(Debug, Drop)]
pub struct Stimulus {
    points: Option<Arc<PointList>>,
}

impl Model for Stimulus {
    ghost use Rattle.std.specs.Prelude.{ℕ, List};
    ghost use Rattle.fourstate.specs.declared.value.Value.{Value as Level};
    ghost use Rattle.design.specs.kept.Shared.{stimulus_in};

    ghost Value = { List (ℕ × Level) };

    ghost view = { λ a. stimulus_in a.points };
}

impl Stimulus {
    /// No points.
    pub fn none() -> Stimulus
        ensures { result ≡ [] }
    {
        Stimulus { points: None }
    }

    /// How many points there are.
    pub fn len(&self) -> usize
        ensures { result ≡ length self.now }
    {
        match &self.points {
            Some(points) => points.len(),
            None => 0,
        }
    }

    /// The value from the latest point at or before the moment `t`, x without one.
    pub fn value_at(&self, t: u64) -> Value
        requires { AreRising self.now }
        ensures { result ≡ stimulus self.now t }
    {
        match &self.points {
            Some(points) => points.value_at(t),
            None => Value::Unknown,
        }
    }

    /// Whether a point is at the moment `t`.
    pub fn has_point(&self, t: u64) -> bool
        requires { AreRising self.now }
        ensures { result ≡ has_point self.now t }
    {
        match &self.points {
            Some(points) => points.has_point(t),
            None => false,
        }
    }

    /// The moment of the first point after the moment `t`.
    pub fn next_after(&self, t: u64) -> Option<u64>
        requires { AreRising self.now }
        ensures { result ≡ next_point self.now t }
    {
        match &self.points {
            Some(points) => points.next_after(t),
            None => None,
        }
    }

    /// The moment from which on two stimuli may differ, where that is `t` or later; none where they are the same from `t` on. What
    /// is from the moment `end` on is not all looked at.
    pub fn parts_from(&self, other: &Stimulus, t: u64, end: u64) -> Option<u64>
        requires rising { AreRising self.now }
        requires other_rising { AreRising other.now }
        ensures { (m : ℕ) → t ≤ m → IfSome result (λ u. m < u) → stimulus self.now m ≡ stimulus other.now m }
    {
        let one = (t, self.value_at(t));
        let second = (t, other.value_at(t));
        if !is_same(one, second) {
            return Some(t);
        }
        part_after(self.pieces(), other.pieces(), t, end)
    }

    /// The points, one after another.
    pub fn points(&self) -> Points<'_>
        ensures { result ≡ self.now }
    {
        Points::new(self.pieces())
    }

    /// The pieces that have the points.
    fn pieces(&self) -> &[Piece]
        ensures points { points_of result.now ≡ self.now }
        ensures filled { AreFilled points_in result.now }
    {
        match &self.points {
            Some(points) => points.pieces(),
            None => &[],
        }
    }

    /// The points with the value from the moment `t` on, until the next point.
    pub fn with_point(self, alloc: Global, t: u64, value: Value) -> Result<Stimulus, AllocError>
        requires { AreRising self }
        ensures { IfOk result (λ stimulus. stimulus ≡ insert_entry nat_cmp self t value) }
    {
        let points = self.into_points(alloc)?;
        let points = points.with_point(t, value)?;
        let points = Arc::new(alloc, points)?;
        Ok(Stimulus {
            points: Some(points),
        })
    }

    /// The points without the one at the moment `t`.
    pub fn without_point(self, alloc: Global, t: u64) -> Result<Stimulus, AllocError>
        requires { AreRising self }
        ensures { IfOk result (λ stimulus. stimulus ≡ filter (λ point. not (point.0 == t)) self) }
    {
        let points = self.into_points(alloc)?;
        let points = points.without_point(t)?;
        let points = Arc::new(alloc, points)?;
        Ok(Stimulus {
            points: Some(points),
        })
    }

    /// The points, copied where another net shares them.
    fn into_points(self, alloc: Global) -> Result<PointList, AllocError>
        ensures { IfOk result (λ points. points ≡ self) }
    {
        match self.points {
            Some(points) => Arc::unwrap_or_clone(points),
            None => Ok(PointList::new(alloc)),
        }
    }
}

impl Clone for Stimulus {
    ghost use Rattle.std.specs.Prelude.{◌≡◌};

    ghost is_clone = { λ old new. new ≡ old };

    fn clone(&self) -> Result<Stimulus, AllocError> {
        match &self.points {
            Some(points) => {
                let points = points.clone()?;
                Ok(Stimulus {
                    points: Some(points),
                })
            }
            None => Ok(Stimulus { points: None }),
        }
    }
}
