//! What is asked of a net: walks, steps, and links that stay.
ghost use Rattle.net_core.specs.Nets.{points};
ghost use Rattle.std.specs.Prelude.{◌≡◌, ◌<◌, length};

use crate::intervals::print_atom;
use crate::nets::Drawn;
use crate::page::Page;
use crate::possible;
use crate::words::Words;
use clash::close;
use net_core::{Memory, Net, Step, Walk, step_atom};
use order_closure::Closed;
use std::alloc::Global;
use tml_score::reduce;
use walks::walk;

/// Prints the answer to a line about a net, of which walks go over some links.
pub fn answer(
    page: &mut Page,
    alloc: Global,
    drawn: &Drawn,
    word: &str,
    words: Words<'_>,
) -> Option<()> {
    let net = drawn.net(alloc)?;
    answer_of_net(page, alloc, &net, &drawn.keep, word, words)
}

fn answer_of_net(
    page: &mut Page,
    alloc: Global,
    net: &Net,
    keep: &[bool],
    word: &str,
    mut words: Words<'_>,
) -> Option<()> {
    match word {
        "walk" => print_walks_between(page, alloc, net, keep, words.pair()?),
        "walks" => print_all_walks(page, alloc, net, keep),
        "step" => {
            let step = step_of(&mut words)?;
            print_atom(page, step_atom(net, &step));
            page.text("\n");
            Some(())
        }
        "reduce" => print_reduced(page, alloc, net),
        _ => possible::print_check(page, alloc, net, &mut words),
    }
}

/// The closure of a net that some timeline fits.
pub fn closure_of(alloc: Global, drawn: &Drawn) -> Option<Closed> {
    let net = drawn.net(alloc)?;
    close(alloc, &net).ok()
}

/// Prints the walks between each two points of a net.
fn print_all_walks(page: &mut Page, alloc: Global, net: &Net, keep: &[bool]) -> Option<()> {
    if keep.len() != net.links() as usize {
        return None;
    }
    let points = 2 * net.intervals();
    for from in 0..points {
        for to in 0..points {
            page.number(u64::from(from));
            page.named("", to);
            page.text("\n");
            print_walks(page, alloc, net, keep, from, to);
        }
    }
    Some(())
}

/// Prints the walks from one point to another, if there are such points.
fn print_walks_between(
    page: &mut Page,
    alloc: Global,
    net: &Net,
    keep: &[bool],
    (from, to): (u32, u32),
) -> Option<()> {
    let points = 2 * net.intervals();
    if keep.len() != net.links() as usize || from >= points || to >= points {
        return None;
    }
    print_walks(page, alloc, net, keep, from, to);
    Some(())
}

/// Prints a shortest walk from one point to another, and a shortest one that has a strict step.
fn print_walks(page: &mut Page, alloc: Global, net: &Net, keep: &[bool], from: u32, to: u32)
    requires keep { length keep.now ≡ length net.now.links }
    requires from { from < points net.now }
    requires to { to < points net.now }
{
    page.text("walk:");
    print_walk(page, walk(alloc, net, keep, from, to, false));
    page.text("strict:");
    print_walk(page, walk(alloc, net, keep, from, to, true));
}

fn print_walk(page: &mut Page, found: Result<Option<Walk>, Memory>) {
    match found {
        Ok(Some(steps)) => print_steps(page, steps.as_slice()),
        Ok(None) => page.text(" none\n"),
        Err(Memory) => page.out_of_memory(),
    }
}

fn print_steps(page: &mut Page, steps: &[Step]) {
    for step in steps {
        print_step(page, *step);
    }
    page.text("\n");
}

fn print_step(page: &mut Page, step: Step) {
    match step {
        Step::Link { link, atom } => {
            page.named(" via", link);
            page.named("", atom);
        }
        Step::Span { interval } => page.named(" span", interval),
        Step::Calendar { from, to } => {
            page.named(" calendar", from);
            page.named("", to);
        }
    }
}

/// The step of words like `via 0 1`, `span 2` or `calendar 0 3`.
fn step_of(words: &mut Words<'_>) -> Option<Step> {
    match words.word() {
        "via" => {
            let (link, atom) = words.pair()?;
            Some(Step::Link { link, atom })
        }
        "span" => Some(Step::Span {
            interval: words.number()?,
        }),
        "calendar" => {
            let (from, to) = words.pair()?;
            Some(Step::Calendar { from, to })
        }
        _ => None,
    }
}

/// Prints the links that stay when those that follow from others are left out. Some timeline has to fit the net.
fn print_reduced(page: &mut Page, alloc: Global, net: &Net) -> Option<()> {
    close(alloc, net).ok()?;
    match reduce(alloc, net) {
        Ok(links) => print_links(page, links.as_slice()),
        Err(Memory) => page.out_of_memory(),
    }
    Some(())
}

fn print_links(page: &mut Page, links: &[u32]) {
    page.text("links");
    for link in links {
        page.named("", *link);
    }
    page.text("\n");
}
