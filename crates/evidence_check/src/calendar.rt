//! What the calendar says of the points of a net, in an order in which one pass over it checks a timeline.
ghost use Rattle.evidence_check.specs.Calendar.{AreEvents, AreEventsInOrder, IsCalendar, KeepsEvents, events_of, least_after as least_rank, turn_of};
ghost use Rattle.evidence_check.specs.declared.calendar.TheConstants.{MAX_EVENTS as most_events};
ghost use Rattle.evidence_check.specs.declared.calendar.Kind.TheVariants.{Lower};
ghost use Rattle.net_core.specs.Nets.{points};
ghost use Rattle.net_core.specs.Ranks.{timeline_of};
ghost use Rattle.std.specs.List.{All};
ghost use Rattle.std.specs.List.Sorted.{IsPermutation};
ghost use Rattle.std.specs.Prelude.{IsTrue, [], ◌∷◌, ◌++◌, length, ◌<◌, ◌≤◌, ◌+◌, ◌≡◌, ◌↔◌};

use net_core::{MAX_POINTS, Net};
use std::marker::Model;

/// What an event says of its point.
#[derive(Clone, Copy)]
pub enum Kind {
    /// The number is the upper one of the point: a point whose lower number comes later is not before it.
    Upper,
    /// The number is the lower one of the point.
    Lower,
    /// The upper number of the point is past: a point whose lower number comes later is after it.
    Past,
}

/// A number that the calendar gives a point.
#[derive(Clone, Copy)]
pub struct Event {
    pub number: i64,
    pub point: u32,
    pub kind: Kind,
}

/// The most events of a net: three for each point.
const MAX_EVENTS: usize = 3 * MAX_POINTS as usize;

/// The events of the points of a net, the least number first. It is made once and takes no memory. A timeline is then
/// checked against the calendar in one pass, where pairs of points would be as many as the square of these.
#[derive(Drop)]
pub struct Calendar {
    events: [Event; MAX_EVENTS],
    count: usize,
}

impl Model for Calendar {
    ghost use Rattle.evidence_check.specs.declared.calendar.Event.{Event as EventOf};
    ghost use Rattle.evidence_check.specs.declared.calendar.TheConstants.{MAX_EVENTS as most_events};
    ghost use Rattle.std.specs.Prelude.{List as ListOf, take, ◌≤◌};

    ghost Value = { ListOf EventOf };

    ghost view = { λ a. take a.count a.events };

    ghost invariant = { λ a. a.count ≤ most_events };
}

impl Calendar {
    /// No events.
    pub fn new() -> Calendar
        ensures { result ≡ [] }
    {
        let none = Event {
            number: 0,
            point: 0,
            kind: Kind::Upper,
        };
        Calendar {
            events: [none; MAX_EVENTS],
            count: 0,
        }
    }

    /// Appends the events of the points of a net, where there are no others.
    pub fn push_points(&mut self, net: &Net)
        requires { self.old ≡ [] }
        ensures { IsCalendar net.now self.new }
    {
        for point in 0..2 * net.intervals() {
            self.push_point(net, point);
        }
        self.sort();
    }

    /// The events.
    fn as_slice(&self) -> &[Event]
        ensures { result.now ≡ self.now }
    {
        &self.events[..self.count]
    }

    /// Appends the events of a point.
    fn push_point(&mut self, net: &Net, point: u32)
        requires point { point < points net.now }
        requires room { length self.old + 3 ≤ most_events }
        requires events { AreEvents net.now point self.old }
        ensures few { length self.new ≤ length self.old + 3 }
        ensures events { AreEvents net.now (point + 1) self.new }
    {
        self.push(Kind::Upper, point, net.upper(point));
        self.push(Kind::Lower, point, net.lower(point));
        self.push(Kind::Past, point, net.upper(point));
    }

    /// Appends the event of a point at a number, where there is one.
    fn push(&mut self, kind: Kind, point: u32, number: Option<i64>)
        requires { length self.old < most_events }
        ensures { self.new ≡ self.old ++ events_of kind point number }
    {
        if let Some(number) = number {
            self.events[self.count] = Event {
                number,
                point,
                kind,
            };
            self.count += 1;
        }
    }

    /// Puts the least number first, and of one number the kinds in their order.
    fn sort(&mut self)
        ensures permutation { IsPermutation self.old self.new }
        ensures in_order { AreEventsInOrder self.new }
    {
        sort_events(&mut self.events[..self.count]);
    }

    /// Whether the points are in the order of the calendar by these ranks.
    pub fn keeps(&self, ranks: &[u32]) -> bool
        requires { All (λ event. event.point < length ranks.now) self.now }
        ensures { IsTrue result ↔ KeepsEvents self.now (timeline_of ranks.now) }
    {
        let events = self.as_slice();
        let mut least = 0;
        for event in events {
            let rank = ranks[event.point as usize];
            if !is_allowed(event.kind, least, rank) {
                return false;
            }
            least = least.max(least_after(event.kind, rank));
        }
        true
    }
}

/// Puts the least number first, and of one number the kinds in their order.
fn sort_events(events: &mut [Event])
    ensures permutation { IsPermutation events.old events.new }
    ensures in_order { AreEventsInOrder events.new }
{
    events.sort_unstable_by_key(|event| (event.number, turn(event.kind)));
}

/// The order of the kinds of one number.
fn turn(kind: Kind) -> u32
    ensures { result ≡ turn_of kind }
{
    match kind {
        Kind::Upper => 0,
        Kind::Lower => 1,
        Kind::Past => 2,
    }
}

/// Whether a rank is no less than the least one, where the event is the lower number of a point.
fn is_allowed(kind: Kind, least: u64, rank: u32) -> bool
    ensures { IsTrue result ↔ (kind ≡ Lower → least ≤ rank) }
{
    match kind {
        Kind::Lower => least <= u64::from(rank),
        Kind::Upper | Kind::Past => true,
    }
}

/// The least rank that points may have whose lower numbers come after an event of a point of this rank.
fn least_after(kind: Kind, rank: u32) -> u64
    ensures { result ≡ least_rank kind rank }
{
    match kind {
        Kind::Upper => u64::from(rank),
        Kind::Lower => 0,
        Kind::Past => u64::from(rank) + 1,
    }
}
