//! Nets of intervals with limits of how long they last.
ghost use Rattle.net_core.specs.Nets.{intervals, points};
ghost use Rattle.seconds_core.specs.Timed as spec;
ghost use Rattle.std.specs.Prelude.{IfSome, ◌<◌, ◌≡◌};

use net_core::{List, Net};
use std::marker::Model;

/// No limit of a length is greater.
pub const MAX_LENGTH: i64 = 700_000_000_000_000;

/// How many seconds an interval lasts: at least `least`, and at most `most`. Each is from -1 to `MAX_LENGTH`; where it is
/// not there, it says nothing.
#[derive(Clone, Copy, Debug, PartialEq, Eq)]
pub struct Limits {
    pub least: Option<i64>,
    pub most: Option<i64>,
}

/// A net, with the limits of each of its intervals. Its points are numbered as in the net. One more point, the origin, is
/// second 0 of the calendar.
#[derive(Drop)]
pub struct Timed {
    net: Net,
    limits: List<Limits>,
}

impl Model for Timed {
    ghost use Rattle.seconds_core.specs.Timed.{IsTimed, PlainTimed};

    ghost Value = { PlainTimed };

    ghost view = { λ a. record { net = a.net; limits = a.limits } };

    ghost invariant = { λ a. IsTimed (record { net = a.net; limits = a.limits }) };
}

impl Timed {
    /// The net with these limits, one for each interval. No number of its calendar is further from second 0, which is
    /// 1970-01-01T00:00:00, than 10^15.
    pub fn new(net: Net, limits: List<Limits>) -> Timed
        requires { spec.IsTimed (record { net = net; limits = limits }) }
        ensures { result ≡ record { net = net; limits = limits } }
    {
        Timed { net, limits }
    }

    /// The net.
    pub fn net(&self) -> &Net
        ensures net { result.now ≡ self.now.net }
        ensures timed { spec.IsTimed self.now }
    {
        &self.net
    }

    /// The limits of an interval.
    #[tactic(auto, using(crate::proofs::InRange::lengths_at))]
    pub fn limits(&self, i: u32) -> Limits
        requires { i < intervals self.now.net }
        ensures limits { result ≡ spec.limits_at self.now i }
        ensures lengths { spec.AreLengths result }
    {
        self.limits.as_slice()[i as usize]
    }

    /// The origin: a point that no interval has.
    pub fn origin(&self) -> u32
        ensures origin { result ≡ spec.origin self.now }
        ensures timed { spec.IsTimed self.now }
    {
        2 * self.net.intervals()
    }

    /// The second that a point is not before, where the calendar gives one.
    #[tactic(auto, using(crate::proofs::InRange::lower_in_range))]
    pub fn lower(&self, point: u32) -> Option<i64>
        requires { point < points self.now.net }
        ensures lower { result ≡ spec.lower_second self.now point }
        ensures near { IfSome result spec.IsSecond }
    {
        self.net.lower(point)
    }

    /// The second that a point is not after, where the calendar gives one.
    #[tactic(auto, using(crate::proofs::InRange::upper_in_range))]
    pub fn upper(&self, point: u32) -> Option<i64>
        requires { point < points self.now.net }
        ensures upper { result ≡ spec.upper_second self.now point }
        ensures near { IfSome result spec.IsSecond }
    {
        self.net.upper(point)
    }
}
