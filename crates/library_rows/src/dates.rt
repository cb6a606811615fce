//! Civil texts of seconds, documents of drills, and lists of `tml_io`.
use crate::page::Page;
use crate::words::Words;
use drill::drill_text;
use std::alloc::Global;
use timex_dates::civil_text;
use tml_io::List;

/// The first second that a civil text may be of, and the last.
const FIRST: i64 = -62_135_596_800;

const LAST: i64 = 253_402_473_600;

/// Prints the answer to a line about numbers.
pub fn answer(page: &mut Page, alloc: Global, word: &str, mut words: Words<'_>) -> Option<()> {
    match word {
        "civil" => print_civil(page, words.second()?),
        "drill" => print_drill(page, alloc, words.number()?),
        _ => print_list(page, alloc, words),
    }
}

fn print_civil(page: &mut Page, second: i64) -> Option<()> {
    if second < FIRST || second > LAST {
        return None;
    }
    page.bytes(civil_text(second).as_bytes());
    page.text("\n");
    Some(())
}

/// Prints the document of a drill of this number of instances.
fn print_drill(page: &mut Page, alloc: Global, instances: u32) -> Option<()> {
    if instances == 0 || instances > net_core::MAX_INTERVALS {
        return None;
    }
    let text = drill_text(alloc, instances).ok()?;
    page.bytes(text.as_slice());
    Some(())
}

/// Prints numbers in the order in which a list of `tml_io` keeps them.
fn print_list(page: &mut Page, alloc: Global, words: Words<'_>) -> Option<()> {
    let list = list_of(alloc, words)?;
    for item in list.as_slice() {
        page.named("", *item);
    }
    page.text("\n");
    Some(())
}

fn list_of(alloc: Global, words: Words<'_>) -> Option<List<u32>> {
    let mut list = List::new(alloc);
    for word in words.rest.split(' ') {
        list.push(word.parse().ok()?).ok()?;
    }
    Some(list)
}
