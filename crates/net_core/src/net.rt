//! Nets of intervals.
ghost use Rattle.net_core.specs.Bounds as calendar;
ghost use Rattle.net_core.specs.Nets as nets;
ghost use Rattle.std.specs.Prelude.{◌≡◌, ◌<◌, length};

use crate::{Bounds, List, Rel};
use std::marker::Model;

/// The ranks of the start and of the end of an interval.
#[derive(Clone, Copy)]
pub struct Ends {
    pub start: u32,
    pub finish: u32,
}

/// The relation of an interval `a` to an interval `b`, by their numbers.
#[derive(Clone, Copy)]
pub struct NetLink {
    pub a: u32,
    pub rel: Rel,
    pub b: u32,
}

/// Intervals of time, with what a calendar says of each, and links between them. Interval `i` has two points: its start
/// is point `2 * i`, and its end is point `2 * i + 1`.
#[derive(Drop)]
pub struct Net {
    bounds: List<Bounds>,
    links: List<NetLink>,
}

impl Model for Net {
    ghost use Rattle.net_core.specs.Nets.{PlainNet, IsNet};

    ghost Value = { PlainNet };

    ghost view = { λ a. record { bounds = a.bounds; links = a.links } };

    ghost invariant = { λ a. IsNet (record { bounds = a.bounds; links = a.links }) };
}

impl Net {
    /// The net with these bounds, one for each interval, and these links.
    pub fn new(bounds: List<Bounds>, links: List<NetLink>) -> Net
        requires { nets.IsNet (record { bounds = bounds; links = links }) }
        ensures { result ≡ record { bounds = bounds; links = links } }
    {
        Net { bounds, links }
    }

    /// How many intervals there are, at most `MAX_INTERVALS`.
    pub fn intervals(&self) -> u32
        ensures count { result ≡ nets.intervals self.now }
        ensures net { nets.IsNet self.now }
    {
        self.bounds.as_slice().len() as u32
    }

    /// How many links there are, at most `MAX_LINKS`.
    pub fn links(&self) -> u32
        ensures count { result ≡ length self.now.links }
        ensures net { nets.IsNet self.now }
    {
        self.links.as_slice().len() as u32
    }

    /// What the calendar says of this interval.
    pub fn bounds(&self, i: u32) -> Bounds
        requires { i < nets.intervals self.now }
        ensures bounds { result ≡ nets.bounds_at self.now i }
        ensures ordered { calendar.AreOrdered result }
    {
        self.bounds.as_slice()[i as usize]
    }

    /// The link of this number. Its ends are numbers of intervals.
    pub fn link(&self, k: u32) -> NetLink
        requires { k < length self.now.links }
        ensures link { result ≡ nets.link_at self.now k }
        ensures a { result.a < nets.intervals self.now }
        ensures b { result.b < nets.intervals self.now }
    {
        self.links.as_slice()[k as usize]
    }

    /// The number that a point is not below, where the calendar gives one.
    pub fn lower(&self, point: u32) -> Option<i64>
        requires { point < nets.points self.now }
        ensures { result ≡ nets.lower self.now point }
    {
        lower_of(self.bounds(point / 2), point % 2 == 1)
    }

    /// The number that a point is not above, where the calendar gives one.
    pub fn upper(&self, point: u32) -> Option<i64>
        requires { point < nets.points self.now }
        ensures { result ≡ nets.upper self.now point }
    {
        upper_of(self.bounds(point / 2), point % 2 == 1)
    }
}

fn lower_of(bounds: Bounds, is_end: bool) -> Option<i64>
    ensures { result ≡ calendar.lower_of bounds is_end }
{
    match bounds {
        Bounds::Exact { lo, hi } => Some(if is_end { hi } else { lo }),
        Bounds::Within { lo, .. } => if is_end { None } else { Some(lo) },
        Bounds::Free => None,
    }
}

fn upper_of(bounds: Bounds, is_end: bool) -> Option<i64>
    ensures { result ≡ calendar.upper_of bounds is_end }
{
    match bounds {
        Bounds::Exact { lo, hi } => Some(if is_end { hi } else { lo }),
        Bounds::Within { hi, .. } => if is_end { Some(hi) } else { None },
        Bounds::Free => None,
    }
}
