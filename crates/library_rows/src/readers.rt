//! Readers: of the units of a text, and of files on a disk.
ghost use Rattle.net_core.specs.Limits.{max_evidence};
ghost use Rattle.std.specs.Prelude.{◌≡◌, ◌≤◌, length};

use crate::markup::print_tree_fault;
use crate::page::Page;
use crate::words::Words;
use std::alloc::Global;
use tml_io::{Failed, FileInputs, Inputs};
use tml_span::{UnitReader, reader};
use tml_tree::tree_from;

/// Prints whether a reader of the units of a text gives a unit, and where it stands then, twice.
pub fn print_pulls(page: &mut Page, alloc: Global, text: &[u8]) -> Option<()>
    requires { length text.now ≤ max_evidence }
{
    let mut units = reader(text).ok()?;
    print_two(page, alloc, &mut units);
    Some(())
}

/// Prints whether the units of a reader nest, where it stands then, and the same of two more units.
pub fn print_nesting(page: &mut Page, alloc: Global, text: &[u8]) -> Option<()>
    requires { length text.now ≤ max_evidence }
{
    let mut units = reader(text).ok()?;
    print_whether_they_nest(page, alloc, &mut units);
    page.named("at", units.place());
    page.text("\n");
    print_two(page, alloc, &mut units);
    Some(())
}

fn print_whether_they_nest(page: &mut Page, alloc: Global, units: &mut UnitReader<'_>)
    requires { units.old.place ≡ 0 }
{
    match tree_from(alloc, units) {
        Ok(_tree) => page.text("a tree\n"),
        Err(why) => print_tree_fault(page, why),
    }
}

fn print_two(page: &mut Page, alloc: Global, units: &mut UnitReader<'_>) {
    print_next(page, alloc, units);
    print_next(page, alloc, units);
}

fn print_next(page: &mut Page, alloc: Global, units: &mut UnitReader<'_>) {
    match units.pull(alloc) {
        Ok(Some(_unit)) => page.text("a unit"),
        Ok(None) => page.text("no unit"),
        Err(_) => page.out_of_memory(),
    }
    page.named(", at", units.place());
    page.text("\n");
}

/// Prints what inputs over files on a disk answer to a start of each name, and how much of it a read of three bytes gives.
pub fn print_files(page: &mut Page, rt: &HostRuntime, words: Words<'_>) {
    let mut inputs = FileInputs::new(rt);
    for name in words.rest.split(' ') {
        print_start(page, &mut inputs, name);
    }
}

fn print_start(page: &mut Page, inputs: &mut FileInputs<'_>, name: &str) {
    match inputs.start(name) {
        Ok(()) => page.text("started, "),
        Err(Failed) => page.text("failed, "),
    }
    let mut buffer = [0; 3];
    match inputs.read(&mut buffer) {
        Ok(count) => page.number(count as u64),
        Err(Failed) => page.text("no"),
    }
    page.text(" bytes\n");
}
