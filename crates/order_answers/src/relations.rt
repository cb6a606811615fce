//! The command `relations`: which relations follow from the links and times of a document.
ghost use Rattle.answers.specs.Names.{AreNames};
ghost use Rattle.derive_rel.specs.Entailed.{AreRows};
ghost use Rattle.derive_rel.specs.declared.all_rows.Row.{Row as RowOf};
ghost use Rattle.order_answers.specs.LineParts as spec;
ghost use Rattle.order_answers.specs.LineParts.{AreEnds, AreStarts, IsStart, line_start};
ghost use Rattle.order_answers.specs.Relations.{row_line};
ghost use Rattle.std.specs.List.{flat_map};
ghost use Rattle.std.specs.Prelude.{◌*◌, ◌++◌, ◌≡◌, ◌<◌, ◌↔◌, ℕ, [], IfOk, IsTrue, List as ListOf, OnOk, length, map, slice_index_or};
ghost use Rattle.tml_refs.specs.Documents.{PlainDocument};

use answers::{DocumentQuery, names_of};
use derive_rel::{Row, rows};
use net_answers::{NetQuery, answer_of_net};
use net_core::{Net, Rel};
use order_closure::Closed;
use runs::Answer;
use std::alloc::{AllocError, Global};
use tml_refs::Document;

/// The command `relations`.
#[derive(Clone, Copy)]
pub struct Relations;

impl DocumentQuery for Relations {
    ghost use Rattle.net_answers.specs.Nets.{of_net};
    ghost use Rattle.order_answers.specs.Relations.{OfRelations};

    ghost says = { λ _. of_net OfRelations };

    /// The relations that hold in every timeline that fits the document, or a minimal clash if none fits, as evidence.
    fn answer(&self, alloc: Global, document: &Document<'_>) -> Result<Answer, AllocError> {
        answer_of_net(alloc, self, document)
    }
}

impl NetQuery for Relations {
    ghost use Rattle.order_answers.specs.Relations.{OfRelations};
    ghost use Rattle.std.specs.Prelude.{⊤};

    ghost is_of = { λ _ _. ⊤ };

    ghost says = { λ _. OfRelations };

    /// A line for each relation that holds in every timeline that fits the net.
    fn answer(
        &self,
        alloc: Global,
        document: &Document<'_>,
        _net: &Net,
        closure: &Closed,
    ) -> Result<Answer, AllocError> {
        Ok(Answer::done(relations_text(alloc, document, closure)?))
    }
}

/// A line for each relation that a table entails, by the names of the intervals of a document.
#[inline(never)]
fn relations_text(
    alloc: Global,
    document: &Document<'_>,
    table: &Closed,
) -> Result<Vec<u8>, AllocError>
    requires { table.now.points ≡ 2 * length document.now.intervals }
    ensures { IfOk result (λ text. (all : ListOf RowOf) × AreRows table.now all × (text.items ≡ flat_map (row_line document.now) all)) }
{
    let names = names_of(alloc, document)?;
    let ends = line_ends(alloc, &names)?;
    let rows = rows(alloc, table)?;
    let mut starts = LineStarts::new(alloc);
    let mut text = Vec::new(alloc);
    for row in rows.as_slice() {
        push_row(&mut text, &mut starts, &names, &ends, row)?;
    }
    Ok(text)
}

/// What lines end with, by the number of their second interval: its name and a line feed.
fn line_ends(alloc: Global, names: &[&[u8]]) -> Result<Vec<Vec<u8>>, AllocError>
    ensures { IfOk result (λ ends. AreEnds (map (λ name. name.now) names.now) (map (λ end. end.items) ends.items)) }
{
    let mut ends = Vec::new(alloc);
    for name in names {
        ends.push(line_end(alloc, name)?)?;
    }
    Ok(ends)
}

/// What lines end with whose second interval has this name.
fn line_end(alloc: Global, name: &[u8]) -> Result<Vec<u8>, AllocError>
    ensures { IfOk result (λ end. end.items ≡ spec.line_end name.now) }
{
    let mut end = Vec::from_slice(alloc, name)?;
    end.push(b'\n')?;
    Ok(end)
}

/// Appends the line of a relation, by the names of all intervals and what lines end with.
fn push_row(
    out: &mut Vec<u8>,
    starts: &mut LineStarts,
    names: &[&[u8]],
    ends: &[Vec<u8>],
    row: &Row,
) -> Result<(), AllocError>
    requires a { row.now.a < length names.now }
    requires b { row.now.b < length names.now }
    requires ends { AreEnds (map (λ name. name.now) names.now) (map (λ end. end.items) ends.now) }
    requires starts { AreStarts (map (λ name. name.now) names.now) starts.old }
    ensures starts { OnOk result (AreStarts (map (λ name. name.now) names.now) starts.new) }
    ensures line { OnOk result ((contents : PlainDocument) → AreNames contents.intervals (map (λ name. name.now) names.now)
        → out.new.items ≡ out.old.items ++ row_line contents row.now) }
{
    starts.begin(out, names, row)?;
    out.extend_from_slice(&ends[row.b as usize])?;
    Ok(())
}

/// What lines begin with, for each relation what the last line of that relation did: the rows of two intervals often have
/// several relations, and those of the next two mostly the same ones.
#[derive(Drop)]
struct LineStarts {
    alloc: Global,
    /// By the number of the relation, up to the greatest that has come.
    starts: Vec<LineStart>,
}

impl LineStarts {
    /// Before the first row.
    fn new(alloc: Global) -> LineStarts
        ensures { result.starts.items ≡ [] }
    {
        LineStarts {
            alloc,
            starts: Vec::new(alloc),
        }
    }

    /// Appends what the line of a row begins with, by the names of all intervals.
    fn begin(&mut self, out: &mut Vec<u8>, names: &[&[u8]], row: &Row) -> Result<(), AllocError>
        requires a { row.now.a < length names.now }
        requires starts { AreStarts (map (λ name. name.now) names.now) self.old }
        ensures starts { OnOk result (AreStarts (map (λ name. name.now) names.now) self.new) }
        ensures text { OnOk result (out.new.items
            ≡ out.old.items ++ line_start (slice_index_or (map (λ name. name.now) names.now) row.now.a []) row.now.rel) }
    {
        let number = row.rel as usize;
        self.reach(number)?;
        let start = &mut self.starts[number];
        start.begin(names, row)?;
        out.extend_from_slice(&start.text)?;
        Ok(())
    }

    /// Makes sure that there is one for the relation of this number.
    fn reach(&mut self, number: usize) -> Result<(), AllocError>
        ensures room { OnOk result (number < length self.new.starts.items) }
        ensures starts { OnOk result ((names : ListOf (ListOf ℕ)) → AreStarts names self.old → AreStarts names self.new) }
    {
        if number < self.starts.len() {
            return Ok(());
        }
        self.grow(number)
    }

    /// Adds one for each relation up to that of this number.
    #[cold]
    #[inline(never)]
    fn grow(&mut self, number: usize) -> Result<(), AllocError>
        ensures room { OnOk result (number < length self.new.starts.items) }
        ensures starts { OnOk result ((names : ListOf (ListOf ℕ)) → AreStarts names self.old → AreStarts names self.new) }
    {
        'more: while self.starts.len() <= number {
            self.starts.push(LineStart::new(self.alloc))?;
        }
        Ok(())
    }
}

/// What the line of a row begins with, up to the name of its second interval.
#[derive(Drop)]
struct LineStart {
    /// The first interval and the relation of the row, if there was one.
    of: Option<(u32, Rel)>,
    text: Vec<u8>,
}

impl LineStart {
    /// Before the first row.
    fn new(alloc: Global) -> LineStart
        ensures { result.of ≡ None }
    {
        LineStart {
            of: None,
            text: Vec::new(alloc),
        }
    }

    /// Makes it that of a row, by the names of all intervals.
    fn begin(&mut self, names: &[&[u8]], row: &Row) -> Result<(), AllocError>
        requires a { row.now.a < length names.now }
        requires start { IsStart (map (λ name. name.now) names.now) self.old }
        ensures start { OnOk result (IsStart (map (λ name. name.now) names.now) self.new) }
        ensures text { OnOk result (self.new.text.items ≡ line_start (slice_index_or (map (λ name. name.now) names.now) row.now.a []) row.now.rel) }
    {
        if self.is_of(row) {
            return Ok(());
        }
        self.of = Some((row.a, row.rel));
        self.text.clear();
        self.text.extend_from_slice(names[row.a as usize])?;
        self.text.push(b' ')?;
        self.text.extend_from_slice(row.rel.text())?;
        self.text.push(b' ')?;
        Ok(())
    }

    /// Whether it is that of a row.
    fn is_of(&self, row: &Row) -> bool
        ensures { IsTrue result ↔ (self.now.of ≡ Some (row.now.a, row.now.rel)) }
    {
        match self.of {
            Some((a, rel)) => a == row.a && rel == row.rel,
            None => false,
        }
    }
}
