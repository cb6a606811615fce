//! Constraints between points, and the lines that name them.
ghost use Rattle.net_core.specs.Nets.{intervals, points};
ghost use Rattle.seconds_core.specs.Constraints as spec;
ghost use Rattle.seconds_core.specs.declared.line.Line.TheVariants.{Least, Lower, Most, Span, Upper, Via};
ghost use Rattle.std.specs.Prelude.{IfSome, ◌<◌, ◌≡◌};

use crate::{Limits, Timed};
use net_core::{Step, step_atom};

/// What names a constraint.
#[derive(Clone, Copy, Debug, PartialEq, Eq)]
pub enum Line {
    /// An interval starts before it ends.
    Span { interval: u32 },
    /// One of the orders that a link is, both counted from 0: the orders as in the table of relations.
    Via { link: u32, atom: u32 },
    /// A point is not before its lower number.
    Lower { point: u32 },
    /// A point is not after its upper number.
    Upper { point: u32 },
    /// An interval lasts no less than its least length.
    Least { interval: u32 },
    /// An interval lasts no longer than its greatest length.
    Most { interval: u32 },
}

/// Point `to` is at most `weight` seconds after point `from`, or where that is negative at least as many before it.
#[derive(Clone, Copy, Debug, PartialEq, Eq)]
pub struct Constraint {
    pub from: u32,
    pub to: u32,
    pub weight: i64,
}

/// The constraint that a line names. None comes exactly where a number is out of range, or what it asks of is not there.
pub fn constraint_of(timed: &Timed, line: Line) -> Option<Constraint>
    ensures exact { result ≡ spec.constraint_of timed.now line }
    ensures within { IfSome result (spec.IsConstraintWithin timed.now) }
{
    match line {
        Line::Span { interval } => span(timed, interval),
        Line::Via { link, atom } => via(timed, link, atom),
        Line::Lower { point } => lower(timed, point),
        Line::Upper { point } => upper(timed, point),
        Line::Least { interval } => least(timed, interval),
        Line::Most { interval } => most(timed, interval),
    }
}

fn span(timed: &Timed, interval: u32) -> Option<Constraint>
    ensures exact { result ≡ spec.constraint_of timed.now (Span interval) }
    ensures within { IfSome result (spec.IsConstraintWithin timed.now) }
{
    if interval >= timed.net().intervals() {
        return None;
    }
    Some(Constraint {
        from: 2 * interval + 1,
        to: 2 * interval,
        weight: -1,
    })
}

#[tactic(auto, using(crate::proofs::InRange::via_in_range))]
fn via(timed: &Timed, link: u32, atom: u32) -> Option<Constraint>
    ensures exact { result ≡ spec.constraint_of timed.now (Via link atom) }
    ensures within { IfSome result (spec.IsConstraintWithin timed.now) }
{
    let order = step_atom(timed.net(), &Step::Link { link, atom })?;
    Some(Constraint {
        from: order.to,
        to: order.from,
        weight: if order.strict { -1 } else { 0 },
    })
}

#[tactic(auto, using(crate::proofs::InRange::lower_in_range, crate::proofs::InRange::lower_past))]
fn lower(timed: &Timed, point: u32) -> Option<Constraint>
    ensures exact { result ≡ spec.constraint_of timed.now (Lower point) }
    ensures within { IfSome result (spec.IsConstraintWithin timed.now) }
{
    let origin = timed.origin();
    if point >= origin {
        return None;
    }
    let second = timed.lower(point)?;
    Some(Constraint {
        from: point,
        to: origin,
        weight: -second,
    })
}

#[tactic(auto, using(crate::proofs::InRange::upper_in_range, crate::proofs::InRange::upper_past))]
fn upper(timed: &Timed, point: u32) -> Option<Constraint>
    ensures exact { result ≡ spec.constraint_of timed.now (Upper point) }
    ensures within { IfSome result (spec.IsConstraintWithin timed.now) }
{
    let origin = timed.origin();
    if point >= origin {
        return None;
    }
    let second = timed.upper(point)?;
    Some(Constraint {
        from: origin,
        to: point,
        weight: second,
    })
}

#[tactic(auto, using(crate::proofs::InRange::limits_past))]
fn least(timed: &Timed, interval: u32) -> Option<Constraint>
    ensures exact { result ≡ spec.constraint_of timed.now (Least interval) }
    ensures within { IfSome result (spec.IsConstraintWithin timed.now) }
{
    if interval >= timed.net().intervals() {
        return None;
    }
    let Limits { least, .. } = timed.limits(interval);
    let least = least?;
    Some(Constraint {
        from: 2 * interval + 1,
        to: 2 * interval,
        weight: -least,
    })
}

#[tactic(auto, using(crate::proofs::InRange::limits_past))]
fn most(timed: &Timed, interval: u32) -> Option<Constraint>
    ensures exact { result ≡ spec.constraint_of timed.now (Most interval) }
    ensures within { IfSome result (spec.IsConstraintWithin timed.now) }
{
    if interval >= timed.net().intervals() {
        return None;
    }
    let Limits { most, .. } = timed.limits(interval);
    let most = most?;
    Some(Constraint {
        from: 2 * interval,
        to: 2 * interval + 1,
        weight: most,
    })
}
