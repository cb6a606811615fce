//! Lists of pairs of numbers that take no memory.
ghost use Rattle.evidence_check.specs.Pairs.{HaveSame, IsKept, IsPairWithin};
ghost use Rattle.evidence_check.specs.declared.pairs.TheConstants.{MAX_PAIRS as most_pairs};
ghost use Rattle.net_core.specs.Ranks.{timeline_of};
ghost use Rattle.std.specs.List.{All, Contains};
ghost use Rattle.std.specs.List.Sorted.{IsPermutation};
ghost use Rattle.std.specs.Prelude.{IsTrue, [], ◌∷◌, ◌++◌, length, take, ◌<◌, ◌≤◌, ◌≡◌, ◌↔◌};

use crate::runs::{are_kept, find_runs};
use net_core::MAX_LINKS;
use std::marker::Model;

/// How a timeline is to order two points or two intervals.
#[derive(Clone, Copy)]
pub enum Order {
    /// The first point is before the second one.
    Before,
    /// The first point is before the second one, or both are at one place.
    NoLater,
    /// Both intervals start together and end together.
    Equal,
}

/// Two points, or two intervals, by their numbers.
#[derive(Clone, Copy)]
pub struct Pair {
    pub first: u16,
    pub second: u16,
}

/// The most pairs of one kind that the links of a net ask for: four for each.
pub const MAX_PAIRS: usize = 4 * MAX_LINKS as usize;

/// Pairs, no more than a net can ask for.
#[derive(Drop)]
pub struct Pairs {
    items: [Pair; MAX_PAIRS],
    count: usize,
    /// How many of the first pairs have one first number, how many of those after them, and so on.
    lens: [u16; MAX_PAIRS],
    runs: usize,
}

impl Model for Pairs {
    ghost use Rattle.evidence_check.specs.declared.pairs.Pair.{Pair as PairOf};
    ghost use Rattle.evidence_check.specs.Pairs.{AreRuns};
    ghost use Rattle.evidence_check.specs.declared.pairs.TheConstants.{MAX_PAIRS as most_pairs};
    ghost use Rattle.std.specs.Prelude.{List as ListOf, take, ◌≤◌};

    ghost Value = { ListOf PairOf };

    ghost view = { λ a. take a.count a.items };

    ghost invariant = { λ a. (a.count ≤ most_pairs) × (a.runs ≤ most_pairs) × AreRuns (take a.runs a.lens) (take a.count a.items) };
}

impl Pairs {
    /// No pairs.
    pub fn new() -> Pairs
        ensures { result ≡ [] }
    {
        let none = Pair {
            first: 0,
            second: 0,
        };
        Pairs {
            items: [none; MAX_PAIRS],
            count: 0,
            lens: [0; MAX_PAIRS],
            runs: 0,
        }
    }

    /// Appends a pair.
    pub fn push(&mut self, pair: Pair)
        requires { length self.old < most_pairs }
        ensures { self.new ≡ self.old ++ pair ∷ [] }
    {
        self.items[self.count] = pair;
        self.count += 1;
    }

    /// Leaves each pair once, beside those of the same first number.
    pub fn drop_repeats(&mut self)
        ensures { HaveSame self.old self.new }
    {
        self.count = move_distinct(&mut self.items[..self.count]);
        self.runs = find_runs(&self.items[..self.count], &mut self.lens);
    }

    /// Whether all pairs are in this order by these ranks.
    pub fn are_kept(&self, order: Order, ranks: &[u32]) -> bool
        requires { All (IsPairWithin order (length ranks.now)) self.now }
        ensures { IsTrue result ↔ All (IsKept order (timeline_of ranks.now)) self.now }
    {
        are_kept(
            order,
            &self.items[..self.count],
            &self.lens[..self.runs],
            ranks,
        )
    }
}

/// Moves each pair to the front once, and answers how many there are.
fn move_distinct(pairs: &mut [Pair]) -> usize
    ensures few { result ≤ length pairs.new }
    ensures same { HaveSame pairs.old (take result pairs.new) }
{
    sort(pairs);
    first_of_each(pairs)
}

/// Puts repeats beside one another.
fn sort(pairs: &mut [Pair])
    ensures { IsPermutation pairs.old pairs.new }
{
    pairs.sort_unstable_by_key(|pair| (pair.first, pair.second));
}

/// Moves the pairs that do not repeat the one before them to the front, and answers how many there are.
fn first_of_each(pairs: &mut [Pair]) -> usize
    ensures few { result ≤ length pairs.new }
    ensures length { length pairs.new ≡ length pairs.old }
    ensures same { HaveSame pairs.old (take result pairs.new) }
{
    let mut kept = 0;
    for k in 0..pairs.len() {
        let pair = pairs[k];
        if !ends_with(&pairs[..kept], pair) {
            pairs[kept] = pair;
            kept += 1;
        }
    }
    kept
}

/// Whether a pair is the last one.
fn ends_with(pairs: &[Pair], pair: Pair) -> bool
    ensures { IsTrue result → Contains pairs.now pair }
{
    match pairs.last() {
        Some(last) => last.first == pair.first && last.second == pair.second,
        None => false,
    }
}
