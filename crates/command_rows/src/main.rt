//! `command_rows`: runs `tml` on each row of a table of cases, and prints each answer that is not the one in the table.
#![tactic(auto)]

mod answer;
mod command;
mod devices;
mod line;
mod repeated;
mod report;
mod section;
mod table;
mod text;

use anyhow::Result;
use std::io;
use table::Table;

fn main(rt: HostRuntime) -> Result<()> {
    let text = io::read_to_string(rt.alloc(), rt.reader())?;
    try_rows(&rt, text.as_str())
}

fn try_rows(rt: &HostRuntime, text: &str) -> Result<()> {
    let mut table = Table::new(rt.alloc());
    for line in text.lines() {
        table.take(rt, line)?;
    }
    table.close(rt)
}
