//! Whether a walk is closed and goes over exactly the cited links.
ghost use Rattle.evidence_check.specs.Asked.{AreRisingLinks};
ghost use Rattle.evidence_check.specs.Refusals.{IsNoClosedWalk};
ghost use Rattle.evidence_format.specs.Numbers.{IsNumber};
ghost use Rattle.net_core.specs.Clashes.{Agrees, IsClosedOver};
ghost use Rattle.net_core.specs.Firsts.{IsFirst};
ghost use Rattle.net_core.specs.Steps.{Uses};
ghost use Rattle.net_core.specs.Walks.{Kept};
ghost use Rattle.std.specs.List.{All, Contains};
ghost use Rattle.std.specs.Prelude.{IfErr, IsTrue, OnOk, length, ℕ, ◌<◌, ◌≡◌, ◌↔◌, ◌⊎◌};

use crate::refusal::Reason;
use crate::walks::follow;
use net_core::{MAX_LINKS, Net, Step, mark_link, mark_steps, step_atom};

/// A mark for each link that a net can have.
type Marks = [bool; MAX_LINKS as usize];

/// Ok where the steps are a closed walk over exactly the cited links, else the first reason why they do not.
pub fn check_closed(net: &Net, cites: &[u32], steps: &[Step]) -> Result<(), Reason>
    requires few { IsNumber (length steps.now) }
    requires cites { AreRisingLinks net.now cites.now }
    ensures ok { OnOk result (IsClosedOver net.now cites.now steps.now) }
    ensures err { IfErr result (IsNoClosedWalk net.now cites.now steps.now) }
{
    let Some(first) = steps.first() else {
        return Err(Reason::Weak);
    };
    let Some(atom) = step_atom(net, first) else {
        return Err(Reason::Step { step: 0 });
    };
    let reached = match follow(net, atom.from, steps) {
        Ok(reached) => reached,
        Err(step) => return Err(Reason::Step { step }),
    };
    if reached.at != atom.from {
        return Err(Reason::End);
    }
    if !reached.strict {
        return Err(Reason::Weak);
    }
    match first_disagreement(net, cites, steps) {
        Some(link) => Err(Reason::Cited { link }),
        None => Ok(()),
    }
}

/// The first link that is cited and has no step, or has a step and is not cited. The links of the net are searched only
/// where there is one.
fn first_disagreement(net: &Net, cites: &[u32], steps: &[Step]) -> Option<u32>
    ensures { IsFirst (length net.now.links) (Agrees cites.now steps.now) result }
{
    let count = net.links();
    let mut cited = [false; MAX_LINKS as usize];
    mark_cites(&mut cited, cites);
    let mut traversed = [false; MAX_LINKS as usize];
    mark_steps(&mut traversed, steps);
    if are_marked(&traversed, cites) && use_marked(&cited, steps) {
        return None;
    }
    for k in 0..count {
        if cited[k as usize] != traversed[k as usize] {
            return Some(k);
        }
    }
    None
}

/// Marks the links that are cited, where there are flags for them.
fn mark_cites(marks: &mut [bool], cites: &[u32])
    ensures length { length marks.new ≡ length marks.old }
    ensures marked { (k : ℕ) → k < length marks.new → Kept marks.new k ↔ (Kept marks.old k ⊎ Contains cites.now k) }
{
    for cite in cites {
        mark_link(marks, *cite);
    }
}

/// Whether links are all marked.
fn are_marked(marks: &Marks, links: &[u32]) -> bool
    ensures { IsTrue result ↔ All (Kept marks.now) links.now }
{
    links.iter().all(|link| is_marked(marks, *link))
}

/// Whether steps go over marked links alone.
fn use_marked(marks: &Marks, steps: &[Step]) -> bool
    ensures { IsTrue result ↔ All (Uses (Kept marks.now)) steps.now }
{
    steps.iter().all(|step| uses_marked(marks, *step))
}

/// Whether a step goes over a marked link, or over none.
fn uses_marked(marks: &Marks, step: Step) -> bool
    ensures { IsTrue result ↔ Uses (Kept marks.now) step }
{
    match step {
        Step::Link { link, .. } => is_marked(marks, link),
        Step::Span { .. } | Step::Calendar { .. } => true,
    }
}

/// Whether a link is marked.
fn is_marked(marks: &Marks, link: u32) -> bool
    ensures { IsTrue result ↔ Kept marks.now link }
{
    (link as usize) < marks.len() && marks[link as usize]
}
