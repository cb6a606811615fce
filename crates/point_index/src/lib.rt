//! Items by one of their points, sorted by it, with where those of each point lie.
#![tactic(auto)]

ghost use Rattle.point_index.specs.Index as spec;
ghost use Rattle.std.specs.List.{Contains};
ghost use Rattle.std.specs.List.Sorted.{IsPermutation};
ghost use Rattle.std.specs.Prelude.{IfOk, length, ◌+◌, ◌<◌, ◌^◌, ◌≡◌, ◌≤◌, ◌↔◌};

use std::alloc::{AllocError, Global};
use std::marker::Model;
use std::ops::Range;

/// Which point of an item is looked at.
pub trait PointOf<T>: Copy {
    ghost use Rattle.std.specs.Prelude.{ℕ};

    /// The point of an item.
    ghost point_of: { Self → T → ℕ };

    /// The point of an item.
    fn point(self, item: &T) -> u32
        ensures { result ≡ point_of self item.now };
}

/// Items, those with the lowest point first, with where those of each point begin. What asks for the items of a point
/// often would spend most of its time on binary searches.
#[derive(Drop)]
pub struct Index<T: Copy, P: PointOf<T>> {
    by: P,
    items: Vec<T>,
    starts: Vec<usize>,
}

impl<T: Copy, P: PointOf<T>> Model for Index<T, P> {
    ghost use Rattle.point_index.specs.Index.{AreStarts, PlainIndex};
    ghost use Rattle.std.specs.Prelude.{length, ◌-◌};

    ghost Value = { PlainIndex T P };

    ghost view = { λ a. record { by = a.by; points = length a.starts.items - 1; items = a.items.items } };

    ghost invariant = { λ a. AreStarts (P.point_of a.by) (length a.starts.items - 1) a.items.items a.starts.items };
}

impl<T: Copy, P: PointOf<T>> Index<T, P> {
    /// The index of these items by this point of each, over this number of points. The order of items of one point is unspecified.
    ///
    /// # Errors
    ///
    /// Out of memory.
    pub fn new(
        alloc: Global,
        mut items: Vec<T>,
        by: P,
        points: u32,
    ) -> Result<Index<T, P>, AllocError>
        requires { points < 2 ^ 31 }
        ensures by { IfOk result (λ index. index.by ≡ by) }
        ensures points { IfOk result (λ index. index.points ≡ points) }
        ensures items { IfOk result (λ index. IsPermutation items.items index.items) }
    {
        items.sort_unstable_by_key(|item| by.point(item));
        let starts = starts_of(alloc, &items, by, points)?;
        Ok(Index { by, items, starts })
    }

    /// The items, those with the lowest point first.
    pub fn items(&self) -> &[T]
        ensures { result.now ≡ self.now.items }
    {
        &self.items
    }

    /// The numbers of the items of a point: from the first one up to the one after the last.
    pub fn numbers_of(&self, point: u32) -> Range<usize>
        requires { point < self.now.points }
        ensures { spec.AreNumbersOf (P.point_of self.now.by) self.now.items point result.start result.end }
    {
        Range {
            start: self.starts[point as usize],
            end: self.starts[point as usize + 1],
        }
    }

    /// The items of a point.
    pub fn of_point(&self, point: u32) -> &[T]
        requires { point < self.now.points }
        ensures { (item : T) → Contains result.now item ↔ (Contains self.now.items item × (P.point_of self.now.by item ≡ point)) }
    {
        let Range { start, end } = self.numbers_of(point);
        &self.items[start..end]
    }
}

/// Where the items of each point begin, of sorted ones, and after the last point where they end.
fn starts_of<T: Copy, P: PointOf<T>>(
    alloc: Global,
    items: &[T],
    by: P,
    points: u32,
) -> Result<Vec<usize>, AllocError>
    requires sorted { spec.AreSorted (P.point_of by) items.now }
    requires few { points < 2 ^ 31 }
    ensures size { IfOk result (λ starts. length starts.items ≡ points + 1) }
    ensures starts { IfOk result (λ starts. spec.AreStarts (P.point_of by) points items.now starts.items) }
{
    let mut starts = Vec::new(alloc);
    for point in 0..points + 1 {
        let start = items.partition_point(|item| by.point(item) < point);
        starts.push(start)?;
    }
    Ok(starts)
}
