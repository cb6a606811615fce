//! The command `possible`: which base relations two intervals of a document can have.
ghost use Rattle.evidence_format.specs.Numbers.{IsNumber};
ghost use Rattle.net_core.specs.Ranks.{pairs_of};
ghost use Rattle.possible_answers.specs.Possible.{IsItemsText, item_lines};
ghost use Rattle.std.specs.Prelude.{IfOk, OnOk, length, ◌%◌, ◌*◌, ◌++◌, ◌<◌, ◌≡◌};

use answers::{DocumentQuery, push_numbered, unknown_name};
use evidence_format::push_timeline;
use net_answers::{NetQuery, answer_of_net};
use net_core::Net;
use order_closure::{Closed, MAX_TABLE_POINTS};
use runs::Answer;
use std::alloc::{AllocError, Global};
use tml_possible::{PossibleItem, possible};
use tml_refs::Document;

/// The command `possible`, with the words for two intervals.
#[derive(Clone, Copy)]
pub struct Possible<'w> {
    pub x: &'w [u8],
    pub y: &'w [u8],
}

impl DocumentQuery for Possible<'_> {
    ghost use Rattle.possible_answers.specs.Possible.{OfPossible};

    ghost says = { λ asked. OfPossible asked.x.now asked.y.now };

    /// The base relations that the intervals can have, each with the least timeline that shows it, or a minimal clash where
    /// no timeline fits, as evidence; or the first word that names no interval.
    fn answer(&self, alloc: Global, document: &Document<'_>) -> Result<Answer, AllocError> {
        let Some(a) = document.index_of(self.x) else {
            return unknown_name(alloc, b"unknown X\n");
        };
        let Some(b) = document.index_of(self.y) else {
            return unknown_name(alloc, b"unknown Y\n");
        };
        answer_of_net(alloc, &Intervals { a, b }, document)
    }
}

/// Two intervals by their numbers.
#[derive(Clone, Copy)]
struct Intervals {
    a: u32,
    b: u32,
}

impl NetQuery for Intervals {
    ghost use Rattle.answers.specs.Names.{AreOf};
    ghost use Rattle.possible_answers.specs.Possible.{of_intervals};

    ghost is_of = { λ asked contents. AreOf contents asked.a asked.b };

    ghost says = { λ asked. of_intervals asked.a asked.b };

    /// An item for each base relation that the intervals can have.
    fn answer(
        &self,
        alloc: Global,
        _document: &Document<'_>,
        _net: &Net,
        closure: &Closed,
    ) -> Result<Answer, AllocError> {
        Ok(Answer::done(items_text(alloc, closure, self.a, self.b)?))
    }
}

/// The text of the items for two intervals of a table.
fn items_text(alloc: Global, table: &Closed, a: u32, b: u32) -> Result<Vec<u8>, AllocError>
    requires even { table.now.points % 2 ≡ 0 }
    requires a { 2 * a < table.now.points }
    requires b { 2 * b < table.now.points }
    ensures { IfOk result (λ text. IsItemsText table.now a b text.items) }
{
    // so few that their number can stand in a text
    prove!(table.points() <= MAX_TABLE_POINTS);
    let items = possible(alloc, table, a, b)?;
    let mut text = Vec::new(alloc);
    push_numbered(&mut text, b"possible ", items.as_slice().len() as u64)?;
    for item in items.as_slice() {
        push_item(&mut text, item)?;
    }
    Ok(text)
}

/// Appends the lines of an item: its relation, and its timeline as evidence has it.
fn push_item(out: &mut Vec<u8>, item: &PossibleItem) -> Result<(), AllocError>
    requires { IsNumber (length (pairs_of item.now.ranks)) }
    ensures { OnOk result (out.new.items ≡ out.old.items ++ item_lines item.now) }
{
    out.extend_from_slice(b"relation ")?;
    out.extend_from_slice(item.rel.text())?;
    out.extend_from_slice(b"\n")?;
    push_timeline(out, &item.ranks)
}
