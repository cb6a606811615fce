//! Items of base relations, which no command takes.
use crate::page::Page;
use crate::words::Words;
use net_core::{Net, Ranks};
use std::alloc::Global;
use tml_possible::{PossibleItem, check_possible};

/// Prints whether this number of items pass as those of the two intervals of a net.
pub fn print_check(page: &mut Page, alloc: Global, net: &Net, words: &mut Words<'_>) -> Option<()> {
    let count = words.number()?;
    let items = items_of(alloc, words, count)?;
    if net.intervals() != 2 {
        return None;
    }
    page.text(if check_possible(net, 0, 1, &items) {
        "they pass\n"
    } else {
        "they do not pass\n"
    });
    Some(())
}

fn items_of(alloc: Global, words: &mut Words<'_>, count: u32) -> Option<Vec<PossibleItem>> {
    let mut items = Vec::new(alloc);
    for _ in 0..count {
        items.push(item_of(alloc, words)?).ok()?;
    }
    Some(items)
}

/// The item of a relation and the ranks of two intervals.
fn item_of(alloc: Global, words: &mut Words<'_>) -> Option<PossibleItem> {
    let rel = words.relation()?;
    let a = words.pair()?;
    let b = words.pair()?;
    let mut ranks = Ranks::new(alloc);
    ranks.push(a.0, a.1).ok()?;
    ranks.push(b.0, b.1).ok()?;
    Some(PossibleItem { rel, ranks })
}
