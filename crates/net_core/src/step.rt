//! Steps from point to point.
ghost use Rattle.net_core.specs.Atoms.{IsInRange};
ghost use Rattle.net_core.specs.Nets.{points};
ghost use Rattle.net_core.specs.Steps as spec;
ghost use Rattle.net_core.specs.Walks.{StepsSayWhatFits};
ghost use Rattle.net_core.specs.declared.step.Step.TheVariants.{Calendar, Link, Span};
ghost use Rattle.std.specs.Prelude.{IfSome, ◌≡◌};

use crate::atom::{before, points_of};
use crate::{Atom, Net, atoms_of};

/// A step from one point to another, by an order of these points.
#[derive(Clone, Copy, PartialEq, Eq)]
pub enum Step {
    /// By one of the orders that a link is, both counted from 0: the orders as in the table of relations.
    Link { link: u32, atom: u32 },
    /// From the start of an interval to its end.
    Span { interval: u32 },
    /// From one point to another in the calendar: the upper number of the first is not above the lower number of the
    /// other.
    Calendar { from: u32, to: u32 },
}

impl Step {
    /// The link that the step goes over, if any.
    pub fn link(self) -> Option<u32>
        ensures { result ≡ spec.link_of self }
    {
        match self {
            Step::Link { link, .. } => Some(link),
            Step::Span { .. } | Step::Calendar { .. } => None,
        }
    }
}

/// The order that a step goes by. That of a link is strict as the table of relations says, that of an interval is
/// strict, and that of the calendar is strict where the two numbers differ. None comes exactly where a number is out of
/// range, or the calendar gives no such order.
pub fn step_atom(net: &Net, step: &Step) -> Option<Atom>
    ensures exact { result ≡ spec.atom_of net.now step.now }
    ensures in_range { IfSome result (IsInRange (points net.now)) }
{
    match *step {
        Step::Link { link, atom } => link_atom(net, link, atom),
        Step::Span { interval } => span_atom(net, interval),
        Step::Calendar { from, to } => calendar_atom(net, from, to),
    }
}

#[tactic(auto, using(crate::proofs::StepLaws::step_in_range))]
fn link_atom(net: &Net, link: u32, atom: u32) -> Option<Atom>
    ensures exact { result ≡ spec.atom_of net.now (Link link atom) }
    ensures in_range { IfSome result (IsInRange (points net.now)) }
{
    if link >= net.links() {
        return None;
    }
    let link = net.link(link);
    atoms_of(link.rel, link.a, link.b).atom(atom)
}

#[tactic(auto, using(crate::proofs::StepLaws::step_in_range))]
fn span_atom(net: &Net, interval: u32) -> Option<Atom>
    ensures exact { result ≡ spec.atom_of net.now (Span interval) }
    ensures in_range { IfSome result (IsInRange (points net.now)) }
{
    if interval >= net.intervals() {
        return None;
    }
    let points = points_of(interval);
    Some(before(points.start, points.finish))
}

#[tactic(auto, using(crate::proofs::StepLaws::step_in_range))]
fn calendar_atom(net: &Net, from: u32, to: u32) -> Option<Atom>
    ensures exact { result ≡ spec.atom_of net.now (Calendar from to) }
    ensures in_range { IfSome result (IsInRange (points net.now)) }
{
    let points = 2 * net.intervals();
    if from >= points || to >= points {
        return None;
    }
    let upper = net.upper(from)?;
    let lower = net.lower(to)?;
    if upper > lower {
        return None;
    }
    Some(Atom {
        from,
        to,
        strict: upper < lower,
    })
}

/// A law: a timeline fits with links exactly where it is in the order of each step over spans, the calendar and these
/// links.
pub fn steps_say_what_fits()
    ensures { StepsSayWhatFits }
{}
