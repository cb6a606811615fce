//! Whether ranks are a timeline that fits a net, and what they break first.
ghost use Rattle.net_core.specs.Firsts.{IsFirst, IsFirstPair};
ghost use Rattle.net_core.specs.Fits.{FollowsNumbers, KeepsCalendar, KeepsLink, RanksFit, StartsFirst};
ghost use Rattle.net_core.specs.Nets.{intervals, points, lower};
ghost use Rattle.net_core.specs.Ranks.{timeline_of};
ghost use Rattle.net_core.specs.Relations.{ends_of};
ghost use Rattle.net_core.specs.Rows.{KeepsBoth, KeepsRow};
ghost use Rattle.std.specs.Prelude.{IsTrue, length, Some, ◌*◌, ◌+◌, ◌<◌, ◌↔◌, ◌≡◌};

use crate::{Bounds, Ends, Net, holds};

/// Whether the ranks are a timeline that fits the net: there are two for each interval, its start and its end, each start
/// is below its end, each link holds, and the points are in the order of the calendar. It takes no memory, and time in n²
/// for the n points that the calendar gives numbers.
pub fn satisfies(net: &Net, ranks: &[u32]) -> bool
    ensures { IsTrue result ↔ RanksFit net.now ranks.now }
{
    if ranks.len() != 2 * net.intervals() as usize {
        return false;
    }
    first_unordered(net, ranks).is_none()
        && first_broken_link(net, ranks).is_none()
        && first_broken_pair(net, ranks).is_none()
}

/// The first interval whose start is not below its end.
pub fn first_unordered(net: &Net, ranks: &[u32]) -> Option<u32>
    requires { length ranks.now ≡ points net.now }
    ensures { IsFirst (intervals net.now) (StartsFirst (timeline_of ranks.now)) result }
{
    for i in 0..net.intervals() {
        let ends = ends_at(ranks, i);
        if ends.start >= ends.finish {
            return Some(i);
        }
    }
    None
}

/// The first link that does not hold.
pub fn first_broken_link(net: &Net, ranks: &[u32]) -> Option<u32>
    requires { length ranks.now ≡ points net.now }
    ensures { IsFirst (length net.now.links) (KeepsLink net.now (timeline_of ranks.now)) result }
{
    for k in 0..net.links() {
        if !keeps_link(net, ranks, k) {
            return Some(k);
        }
    }
    None
}

/// The first pair of points, by `from` and then by `to`, that are not in the order of the calendar.
pub fn first_broken_pair(net: &Net, ranks: &[u32]) -> Option<(u32, u32)>
    requires { length ranks.now ≡ points net.now }
    ensures { IsFirstPair (points net.now) (KeepsCalendar net.now (timeline_of ranks.now)) result }
{
    for from in 0..2 * net.intervals() {
        if let Some(to) = first_broken_to(net, ranks, from) {
            return Some((from, to));
        }
    }
    None
}

/// The first point that is not in the order of the calendar with this one.
fn first_broken_to(net: &Net, ranks: &[u32], from: u32) -> Option<u32>
    requires size { length ranks.now ≡ points net.now }
    requires from { from < points net.now }
    ensures { IsFirst (points net.now) (KeepsCalendar net.now (timeline_of ranks.now) from) result }
{
    match net.upper(from) {
        Some(upper) => first_broken_by(net, ranks, upper, ranks[from as usize]),
        None => None,
    }
}

/// The first point that is not in order with a point of this upper number and this rank.
fn first_broken_by(net: &Net, ranks: &[u32], upper: i64, rank: u32) -> Option<u32>
    requires { length ranks.now ≡ points net.now }
    ensures { IsFirst (points net.now) (λ to. FollowsNumbers (Some upper) (lower net.now to) rank (timeline_of ranks.now to)) result }
{
    if keeps_row(net, ranks, upper, rank) {
        None
    } else {
        first_broken_in_row(net, ranks, upper, rank)
    }
}

/// The same, point by point.
fn first_broken_in_row(net: &Net, ranks: &[u32], upper: i64, rank: u32) -> Option<u32>
    requires { length ranks.now ≡ points net.now }
    ensures { IsFirst (points net.now) (λ to. FollowsNumbers (Some upper) (lower net.now to) rank (timeline_of ranks.now to)) result }
{
    for to in 0..2 * net.intervals() {
        if !follows_any(upper, net.lower(to), rank, ranks[to as usize]) {
            return Some(to);
        }
    }
    None
}

/// Whether all points are in order with a point of this upper number and this rank. It goes over all of them without a
/// branch on numbers or ranks: those of a good timeline come in no order that a processor foresees.
fn keeps_row(net: &Net, ranks: &[u32], upper: i64, rank: u32) -> bool
    requires { length ranks.now ≡ points net.now }
    ensures { IsTrue result ↔ KeepsRow net.now (timeline_of ranks.now) (Some upper) rank (points net.now) }
{
    let mut keeps = true;
    for i in 0..net.intervals() {
        keeps &= keeps_both(net.bounds(i), ends_at(ranks, i), upper, rank);
    }
    keeps
}

/// Whether both points of an interval are in order with a point of this upper number and this rank.
#[inline]
fn keeps_both(bounds: Bounds, ends: Ends, upper: i64, rank: u32) -> bool
    ensures { IsTrue result ↔ KeepsBoth bounds ends (Some upper) rank }
{
    match bounds {
        Bounds::Exact { lo, hi } => follows(upper, lo, rank, ends.start)
            & follows(upper, hi, rank, ends.finish),
        Bounds::Within { lo, .. } => follows(upper, lo, rank, ends.start),
        Bounds::Free => true,
    }
}

/// Whether two ranks are as the upper number of the first point, and the lower number of the second one if any, say.
fn follows_any(upper: i64, lower: Option<i64>, from: u32, to: u32) -> bool
    ensures { IsTrue result ↔ FollowsNumbers (Some upper) lower from to }
{
    match lower {
        Some(lower) => follows(upper, lower, from, to),
        None => true,
    }
}

/// Whether two ranks are as the upper number of the first point and the lower number of the second one say.
#[inline]
fn follows(upper: i64, lower: i64, from: u32, to: u32) -> bool
    ensures { IsTrue result ↔ FollowsNumbers (Some upper) (Some lower) from to }
{
    (upper > lower) | (from < to) | (upper == lower) & (from == to)
}

/// Whether the link of this number holds.
pub fn keeps_link(net: &Net, ranks: &[u32], k: u32) -> bool
    requires size { length ranks.now ≡ points net.now }
    requires k { k < length net.now.links }
    ensures { IsTrue result ↔ KeepsLink net.now (timeline_of ranks.now) k }
{
    let link = net.link(k);
    holds(link.rel, ends_at(ranks, link.a), ends_at(ranks, link.b))
}

/// The ranks of the start and the end of an interval.
pub fn ends_at(ranks: &[u32], interval: u32) -> Ends
    requires { 2 * interval + 1 < length ranks.now }
    ensures { result ≡ ends_of (timeline_of ranks.now) interval }
{
    let start = 2 * interval as usize;
    Ends {
        start: ranks[start],
        finish: ranks[start + 1],
    }
}
