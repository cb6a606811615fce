//! Pairs in runs of one first number each, whose rank is looked up once for all of them.
ghost use Rattle.evidence_check.specs.Pairs.{AreRuns, IsKept, IsRun, IsPairWithin};
ghost use Rattle.net_core.specs.Ranks.{timeline_of};
ghost use Rattle.net_core.specs.Relations.{Equals};
ghost use Rattle.std.specs.List.{All, prefix_len};
ghost use Rattle.std.specs.Prelude.{IsTrue, length, nat_eq, take, ◌<◌, ◌≤◌, ◌≡◌, ◌^◌, ◌↔◌};

use crate::pairs::{Order, Pair};
use net_core::{Ends, ends_at};

/// Finds the runs of pairs, as the number of pairs in each, and answers how many runs there are.
pub fn find_runs(pairs: &[Pair], lens: &mut [u16]) -> usize
    requires room { length pairs.now ≤ length lens.old }
    requires few { length pairs.now < 2 ^ 16 }
    ensures length { length lens.new ≡ length lens.old }
    ensures few { result ≤ length pairs.now }
    ensures runs { AreRuns (take result lens.new) pairs.now }
{
    let mut runs = 0;
    let mut rest = pairs;
    while let [pair, ..] = rest {
        let len = run_len(pair.first, rest);
        lens[runs] = len as u16;
        runs += 1;
        let (_, more) = rest.split_at(len);
        rest = more;
    }
    runs
}

/// How many pairs come before the first one with another first number than this.
fn run_len(first: u16, pairs: &[Pair]) -> usize
    ensures within { result ≤ length pairs.now }
    ensures len { result ≡ prefix_len (λ pair. nat_eq pair.first first) pairs.now }
{
    pairs.iter().take_while(|pair| pair.first == first).count()
}

/// Whether all pairs, the first of which stand in runs of these lengths, are in this order by these ranks.
pub fn are_kept(order: Order, pairs: &[Pair], lens: &[u16], ranks: &[u32]) -> bool
    requires within { All (IsPairWithin order (length ranks.now)) pairs.now }
    requires runs { AreRuns lens.now pairs.now }
    ensures { IsTrue result ↔ All (IsKept order (timeline_of ranks.now)) pairs.now }
{
    let mut all = true;
    let mut rest = pairs;
    for len in lens {
        let (run, more) = rest.split_at(usize::from(*len));
        all &= is_run_kept(order, run, ranks);
        rest = more;
    }
    all & is_each_kept(order, rest, ranks)
}

/// Whether the pairs of a run are in this order by these ranks. It goes over all of them without a branch on ranks.
fn is_run_kept(order: Order, run: &[Pair], ranks: &[u32]) -> bool
    requires within { All (IsPairWithin order (length ranks.now)) run.now }
    requires run { IsRun run.now }
    ensures { IsTrue result ↔ All (IsKept order (timeline_of ranks.now)) run.now }
{
    let Some(head) = run.first() else {
        return true;
    };
    let first = head.first;
    let mut all = true;
    for pair in run {
        let second = pair.second;
        all &= is_kept(order, Pair { first, second }, ranks);
    }
    all
}

/// Whether each pair is in this order by these ranks. It goes over all of them without a branch on ranks.
fn is_each_kept(order: Order, pairs: &[Pair], ranks: &[u32]) -> bool
    requires { All (IsPairWithin order (length ranks.now)) pairs.now }
    ensures { IsTrue result ↔ All (IsKept order (timeline_of ranks.now)) pairs.now }
{
    let mut all = true;
    for pair in pairs {
        all &= is_kept(order, *pair, ranks);
    }
    all
}

/// Whether a pair is in this order by these ranks.
#[inline]
fn is_kept(order: Order, pair: Pair, ranks: &[u32]) -> bool
    requires { IsPairWithin order (length ranks.now) pair }
    ensures { IsTrue result ↔ IsKept order (timeline_of ranks.now) pair }
{
    match order {
        Order::Before => is_before(pair.first, pair.second, ranks),
        Order::NoLater => !is_before(pair.second, pair.first, ranks),
        Order::Equal => is_same(
            ends_at(ranks, u32::from(pair.first)),
            ends_at(ranks, u32::from(pair.second)),
        ),
    }
}

/// Whether one point is before another by these ranks.
#[inline]
fn is_before(a: u16, b: u16, ranks: &[u32]) -> bool
    requires a { a < length ranks.now }
    requires b { b < length ranks.now }
    ensures { IsTrue result ↔ timeline_of ranks.now a < timeline_of ranks.now b }
{
    ranks[a as usize] < ranks[b as usize]
}

#[inline]
fn is_same(a: Ends, b: Ends) -> bool
    ensures { IsTrue result ↔ Equals a b }
{
    (a.start == b.start) & (a.finish == b.finish)
}
