//! What relations say of two intervals, and the orders of points that they are.
use crate::page::Page;
use crate::words::Words;
use named::Named;
use net_core::{Atom, Ends, Rel, atoms_of, holds};

/// How many orders are printed of each relation, none of which has more than four.
const ASKED: u32 = 5;

/// Prints the answer to a line about relations.
pub fn answer(page: &mut Page, word: &str, mut words: Words<'_>) -> Option<()> {
    match word {
        "atoms" => {
            let rel = words.relation()?;
            print_atoms(page, rel, words.pair()?)
        }
        _ => {
            let a = ends(&mut words)?;
            let b = ends(&mut words)?;
            print_holding(page, a, b);
            Some(())
        }
    }
}

fn ends(words: &mut Words<'_>) -> Option<Ends> {
    let (start, finish) = words.pair()?;
    Some(Ends { start, finish })
}

/// Prints how many orders a relation between two intervals is, and each that is there.
fn print_atoms(page: &mut Page, rel: Rel, (a, b): (u32, u32)) -> Option<()> {
    if a >= 2147483647 || b >= 2147483647 {
        return None;
    }
    let atoms = atoms_of(rel, a, b);
    page.number(u64::from(atoms.count()));
    page.text(":");
    for k in 0..ASKED {
        print_atom(page, atoms.atom(k));
    }
    page.text("\n");
    Some(())
}

/// Prints an order of two points, or `none`.
pub fn print_atom(page: &mut Page, atom: Option<Atom>) {
    match atom {
        Some(atom) => {
            page.named("", atom.from);
            page.text(if atom.strict { "<" } else { "<=" });
            page.number(u64::from(atom.to));
        }
        None => page.text(" none"),
    }
}

/// Prints the relations that an interval has to another, by the ranks of their ends.
fn print_holding(page: &mut Page, a: Ends, b: Ends) {
    for rel in Rel::all() {
        if holds(*rel, a, b) {
            page.text(" ");
            page.bytes(rel.text());
        }
    }
    page.text("\n");
}
