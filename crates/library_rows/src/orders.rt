//! Tables of orders.
use crate::page::Page;
use crate::words::Words;
use net_core::{Atom, Memory};
use order_closure::{Cell, Closed, MAX_TABLE_POINTS};
use std::alloc::Global;
use timeline::least;

/// The table of this number of points, of which nothing is known.
pub fn table_of(alloc: Global, points: u32) -> Option<Closed> {
    if points > MAX_TABLE_POINTS {
        return None;
    }
    Closed::new(alloc, points).ok()
}

/// The same table once more.
pub fn copy_of(alloc: Global, table: &Closed) -> Option<Closed> {
    table.copy(alloc).ok()
}

/// Prints the answer to a line about a table.
pub fn answer(
    page: &mut Page,
    alloc: Global,
    table: &mut Closed,
    word: &str,
    mut words: Words<'_>,
) -> Option<()> {
    match word {
        "weak" => add_order(page, table, words.pair()?, false),
        "strict" => add_order(page, table, words.pair()?, true),
        "rows" => print_rows(page, table, words.number()?),
        "cells" => {
            print_cells(page, table);
            Some(())
        }
        _ => print_least(page, alloc, table),
    }
}

/// Adds the order of two points, and prints it where it would clash.
fn add_order(
    page: &mut Page,
    table: &mut Closed,
    (from, to): (u32, u32),
    strict: bool,
) -> Option<()> {
    if from >= table.points() || to >= table.points() {
        return None;
    }
    if table.add(Atom { from, to, strict }).is_err() {
        page.text("it would clash\n");
    }
    Some(())
}

/// Prints the two rows of a point: the points that it is before or with, and those that it is before.
fn print_rows(page: &mut Page, table: &Closed, point: u32) -> Option<()> {
    if point >= table.points() {
        return None;
    }
    page.text("before or with:");
    print_words(page, table.weak_row(point));
    page.text("before:");
    print_words(page, table.strict_row(point));
    Some(())
}

/// Prints a row, word by word, of which the first one has the points from 0 to 63.
fn print_words(page: &mut Page, words: &[u64]) {
    for word in words {
        page.text(" ");
        page.number(*word);
    }
    page.text("\n");
}

/// Prints the cells of a table, row after row: a sign for what is known of two points.
fn print_cells(page: &mut Page, table: &Closed) {
    for from in 0..table.points() {
        for to in 0..table.points() {
            page.text(sign_of(table.cell(from, to)));
        }
        page.text("\n");
    }
}

fn sign_of(cell: Cell) -> &'static str {
    match cell {
        Cell::Free => ".",
        Cell::Weak => "w",
        Cell::Strict => "s",
    }
}

/// Prints the least ranks of the points of a table, of which there is an even number.
fn print_least(page: &mut Page, alloc: Global, table: &Closed) -> Option<()> {
    if table.points() % 2 != 0 {
        return None;
    }
    match least(alloc, table) {
        Ok(ranks) => print_ranks(page, ranks.as_slice()),
        Err(Memory) => page.out_of_memory(),
    }
    Some(())
}

fn print_ranks(page: &mut Page, ranks: &[u32]) {
    page.text("ranks");
    for rank in ranks {
        page.named("", *rank);
    }
    page.text("\n");
}
