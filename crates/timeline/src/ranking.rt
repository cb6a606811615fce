//! The ranks of points, from those with the most points after them on.
ghost use Rattle.net_core.specs.Least.{IsLeast};
ghost use Rattle.net_core.specs.Ranks.{timeline_of};
ghost use Rattle.order_closure.specs.Bits.{bit_of};
ghost use Rattle.order_closure.specs.Tables.{IsClosed, Keeps, cell_at, max_table_points};
ghost use Rattle.std.specs.Int.{bit_at};
ghost use Rattle.std.specs.Prelude.{IfOk, length, slice_index, ℕ, ◌*◌, ◌+◌, ◌/◌, ◌<◌, ◌≡◌, ◌≤◌};
ghost use Rattle.timeline.specs.Ranking.{AreCounted, AreInTurn, AreRanksOfCells, after_count, raised};

use net_core::Memory;
use order_closure::Closed;
use std::alloc::Global;
use std::cmp::Reverse;

/// A point, and how many points are after it.
#[derive(Clone, Copy)]
struct Counted {
    after: u32,
    point: u32,
}

/// The rank of each point: the least number above the ranks of the points before it.
///
/// # Errors
///
/// Out of memory.
pub fn ranked(alloc: Global, closed: &Closed) -> Result<Vec<u32>, Memory>
    ensures size { IfOk result (λ ranks. length ranks.items ≡ closed.now.points) }
    ensures ranks { IfOk result (λ ranks. AreRanksOfCells closed.now.points (cell_at closed.now) ranks.items) }
    ensures least { IfOk result (λ ranks. IsLeast closed.now.points (Keeps closed.now) (timeline_of ranks.items)) }
    ensures small { IfOk result (λ ranks. (p : ℕ) → p < closed.now.points
        → slice_index ranks.items p < closed.now.points) }
{
    let turns = in_turn(alloc, closed)?;
    let mut ranks = vec![in alloc; 0u32; closed.points() as usize]?;
    rank_all(closed, &turns, &mut ranks);
    Ok(ranks)
}

/// The points, those with the most points after them first: so each comes before all that are after it.
fn in_turn(alloc: Global, closed: &Closed) -> Result<Vec<Counted>, Memory>
    ensures counted { IfOk result (λ turns. AreCounted closed.now.points (cell_at closed.now) turns.items) }
    ensures sorted { IfOk result (λ turns. AreInTurn turns.items) }
{
    let mut turns = count_all(alloc, closed)?;
    turns.sort_unstable_by_key(|turn| Reverse(turn.after));
    Ok(turns)
}

/// How many points are after each point.
fn count_all(alloc: Global, closed: &Closed) -> Result<Vec<Counted>, Memory>
    ensures { IfOk result (λ all. AreCounted closed.now.points (cell_at closed.now) all.items) }
{
    let mut all = Vec::new(alloc);
    for point in 0..closed.points() {
        let after = count_after(closed, point);
        all.push(Counted { after, point })?;
    }
    Ok(all)
}

/// How many points are after a point.
fn count_after(closed: &Closed, point: u32) -> u32
    requires few { closed.now.points ≤ max_table_points }
    requires point { point < closed.now.points }
    ensures { result ≡ after_count closed.now.points (cell_at closed.now) point }
{
    let row = closed.strict_row(point);
    let mut count = 0;
    for word in row {
        count += word.count_ones();
    }
    count
}

/// Ranks the points: each in its turn raises the ranks of the points after it above its own, which no later turn changes.
fn rank_all(closed: &Closed, turns: &[Counted], ranks: &mut [u32])
    requires few { closed.now.points ≤ max_table_points }
    requires closed { IsClosed closed.now }
    requires counted { AreCounted closed.now.points (cell_at closed.now) turns.now }
    requires sorted { AreInTurn turns.now }
    requires size { length ranks.old ≡ closed.now.points }
    requires zero { (p : ℕ) → slice_index ranks.old p ≡ 0 }
    ensures { AreRanksOfCells closed.now.points (cell_at closed.now) ranks.new }
{
    for turn in turns {
        let least = ranks[turn.point as usize] + 1;
        raise_after(ranks, closed.strict_row(turn.point), least);
    }
}

/// Raises the rank of each point whose bit is set in a row: it is then at least `least`. The other ranks stay.
fn raise_after(ranks: &mut [u32], row: &[u64], least: u32)
    requires long { length row.now ≡ (length ranks.old + 63) / 64 }
    requires within { (q : ℕ) → bit_of row.now q ≡ 1 → q < length ranks.old }
    ensures { (q : ℕ) → slice_index ranks.new q ≡ raised (bit_of row.now q) least (slice_index ranks.old q) }
{
    for (k, word) in row.iter().enumerate() {
        raise_word(ranks, 64 * k, *word, least);
    }
}

/// Raises the rank of each point whose bit is set in one word, of which bit 0 is that of point `first`. It takes one step
/// for each bit that is set.
fn raise_word(ranks: &mut [u32], first: usize, word: u64, least: u32)
    requires { (j : ℕ) → bit_at word j ≡ 1 → first + j < length ranks.old }
    ensures raised { (j : ℕ) → slice_index ranks.new (first + j)
        ≡ raised (bit_at word j) least (slice_index ranks.old (first + j)) }
    ensures others { (q : ℕ) → q < first → slice_index ranks.new q ≡ slice_index ranks.old q }
{
    let mut rest = word;
    while rest != 0 {
        let j = rest.trailing_zeros() as usize;
        let rank = &mut ranks[first + j];
        *rank = (*rank).max(least);
        rest &= rest - 1;
    }
}
