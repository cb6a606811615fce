//! The command `matrix`: which base relations each two intervals of a document can have.
ghost use Rattle.answers.specs.Names.{AreNames};
ghost use Rattle.possible_answers.specs.Matrix.{RelTest, TellsTable, lines_from, matrix_lines, words_of};
ghost use Rattle.possible_answers.specs.SetTexts.{AreTexts};
ghost use Rattle.std.specs.Prelude.{IfOk, List as ListOf, OnOk, codes, length, map, ◌*◌, ◌+◌, ◌++◌, ◌<◌, ◌≡◌, ◌≤◌};
ghost use Rattle.tml_possible.specs.OrderSets.{AreOrderSets};
ghost use Rattle.tml_possible.specs.Possible.{StartFirst};
ghost use Rattle.tml_possible.specs.Sets.{has};
ghost use Rattle.tml_refs.specs.Documents.{PlainInterval};

use crate::set_texts::SetTexts;
use answers::{DocumentQuery, names_of};
use net_answers::{NetQuery, answer_of_net};
use net_core::Net;
use order_closure::{Closed, MAX_TABLE_POINTS};
use runs::Answer;
use std::alloc::{AllocError, Global};
use tml_possible::{BaseSet, OrderSets};
use tml_refs::Document;

/// The command `matrix`.
#[derive(Clone, Copy)]
pub struct Matrix;

impl DocumentQuery for Matrix {
    ghost use Rattle.net_answers.specs.Nets.{of_net};
    ghost use Rattle.possible_answers.specs.Matrix.{OfMatrix};

    ghost says = { λ _. of_net OfMatrix };

    /// The base relations that each two intervals can have, or a minimal clash where no timeline fits, as evidence.
    fn answer(&self, alloc: Global, document: &Document<'_>) -> Result<Answer, AllocError> {
        answer_of_net(alloc, self, document)
    }
}

impl NetQuery for Matrix {
    ghost use Rattle.possible_answers.specs.Matrix.{OfMatrix};
    ghost use Rattle.std.specs.Prelude.{⊤};

    ghost is_of = { λ _ _. ⊤ };

    ghost says = { λ _. OfMatrix };

    /// A line for each interval and each one after it.
    fn answer(
        &self,
        alloc: Global,
        document: &Document<'_>,
        _net: &Net,
        closure: &Closed,
    ) -> Result<Answer, AllocError> {
        prove!(closure.points() <= MAX_TABLE_POINTS);
        Ok(Answer::done(matrix_text(alloc, document, closure)?))
    }
}

/// A line for each interval of a document and each one after it, with the base relations that can hold between them by a
/// table.
fn matrix_text(
    alloc: Global,
    document: &Document<'_>,
    table: &Closed,
) -> Result<Vec<u8>, AllocError>
    requires points { table.now.points ≡ 2 * length document.now.intervals }
    requires starts { StartFirst table.now }
    ensures { IfOk result (λ text. (can : RelTest) → TellsTable table.now can → text.items ≡ matrix_lines document.now.intervals (length document.now.intervals) can 0) }
{
    let names = names_of(alloc, document)?;
    let sets = OrderSets::new();
    let mut texts = SetTexts::new(alloc)?;
    let mut text = Vec::new(alloc);
    for a in 0..document.intervals() {
        push_from(&mut text, &mut texts, &sets, table, &names, a)?;
    }
    Ok(text)
}

/// Appends the lines of an interval and each one after it, by the names of all.
#[inline(never)]
fn push_from(
    out: &mut Vec<u8>,
    texts: &mut SetTexts,
    sets: &OrderSets,
    table: &Closed,
    names: &[&[u8]],
    a: u32,
) -> Result<(), AllocError>
    requires points { table.now.points ≡ 2 * length names.now }
    requires starts { StartFirst table.now }
    requires a { a < length names.now }
    requires sets { AreOrderSets sets.now }
    requires texts { AreTexts texts.old.bytes.items texts.old.places.items }
    ensures texts { OnOk result (AreTexts texts.new.bytes.items texts.new.places.items) }
    ensures lines { OnOk result ((intervals : ListOf PlainInterval) (can : RelTest) → AreNames intervals (map (λ name. name.now) names.now) → TellsTable table.now can
        → out.new.items ≡ out.old.items ++ lines_from intervals (length names.now) can a (a + 1)) }
{
    prove!(table.points() <= MAX_TABLE_POINTS);
    let name = names[a as usize];
    for b in a + 1..names.len() as u32 {
        let set = sets.possible_set(table, a, b);
        push_line(out, texts, name, names[b as usize], set)?;
    }
    Ok(())
}

/// Appends the line of two intervals: their names, and the base relations of a set.
fn push_line(
    out: &mut Vec<u8>,
    texts: &mut SetTexts,
    a: &[u8],
    b: &[u8],
    set: BaseSet,
) -> Result<(), AllocError>
    requires { AreTexts texts.old.bytes.items texts.old.places.items }
    ensures texts { OnOk result (AreTexts texts.new.bytes.items texts.new.places.items) }
    ensures line { OnOk result (out.new.items ≡ out.old.items ++ (a.now ++ codes " " ++ b.now ++ words_of (has set))) }
{
    out.extend_from_slice(a)?;
    out.extend_from_slice(b" ")?;
    out.extend_from_slice(b)?;
    texts.push(out, set)
}
