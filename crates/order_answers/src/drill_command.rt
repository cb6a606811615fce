//! The command `drill`: what the other commands answer to the document of a drill.
ghost use Rattle.clash.specs.Closures.{IsClosureOf};
ghost use Rattle.derive_rel.specs.Entailed.{AreRows};
ghost use Rattle.derive_rel.specs.declared.all_rows.Row.{Row};
ghost use Rattle.drill.specs.Laws.{IsDrill};
ghost use Rattle.drill.specs.Texts.{drill_contents, drill_document};
ghost use Rattle.net_build.specs.Built.{IsNetOf};
ghost use Rattle.net_core.specs.Entailment.{HasTimeline};
ghost use Rattle.net_core.specs.Fits.{RanksFit};
ghost use Rattle.net_core.specs.Limits.{max_points};
ghost use Rattle.net_core.specs.Nets.{PlainNet};
ghost use Rattle.order_answers.specs.Drill.{IsGreatest, OfDrill, drill_number, figure_lines};
ghost use Rattle.std.specs.Prelude.{◌++◌, ◌<◌, ◌%◌, ◌≡◌, ◌≤◌, IfOk, IfSome, List, OnOk, codes, length, slice_index, ℕ};
ghost use Rattle.tml_accept.specs.Acceptance.{Says};
ghost use Rattle.runs.specs.View.{finding_status};

use crate::solve::timeline_text;
use answers::push_numbered;
use clash::{CloseFault, close};
use derive_rel::rows;
use drill::drill_text;
use evidence_answers::verdict;
use itoa::Buffer;
use net_build::net_of;
use net_core::{MAX_INTERVALS, Net, Ranks};
use order_closure::Closed;
use runs::{Answer, Finding};
use std::alloc::{AllocError, Global};
use timeline::least;
use tml_accept::{Refusal, accept};
use tml_refs::Document;

/// The number of a drill, from 1 to MAX_INTERVALS in decimal, without sign or leading zero.
pub fn drill_number(word: &str) -> Option<u32>
    ensures number { result ≡ drill_number word.now }
    ensures range { IfSome result IsDrill }
{
    let Ok(n) = word.parse::<u32>() else {
        return None;
    };
    let mut buffer = Buffer::new();
    if 1 <= n && n <= MAX_INTERVALS && buffer.format(n) == word {
        Some(n)
    } else {
        None
    }
}

/// The numbers of a summary.
#[derive(Clone, Copy)]
struct Figures {
    /// The number of the drill.
    drill: u32,
    /// How many bytes its document has.
    bytes: usize,
    /// How many links it has.
    links: u32,
    /// The greatest rank of its least timeline.
    greatest: u32,
    /// How many relations follow.
    relations: usize,
}

/// The summary of drill `n`: its document is judged, solved and related by the calls of the other commands, and the
/// timeline is written as evidence, read again and verified.
pub fn drill_summary(alloc: Global, n: u32) -> Result<Answer, AllocError>
    requires { IsDrill n }
    ensures { IfOk result (λ answer. OfDrill n (finding_status answer.finding) answer.text.items) }
{
    let doc = drill_text(alloc, n)?;
    let document = match accept(alloc, doc.as_slice()) {
        Ok(document) => document,
        Err(Refusal::Memory) => return Err(AllocError),
        Err(Refusal::Fault { .. }) => unreachable!(),
    };
    of_document(alloc, n, doc.as_slice().len(), &document)
}

/// The summary of drill `n` with this document, by its number of bytes.
fn of_document(
    alloc: Global,
    n: u32,
    bytes: usize,
    document: &Document<'_>,
) -> Result<Answer, AllocError>
    requires drill { IsDrill n }
    requires bytes { bytes ≡ length (drill_document n) }
    requires says { Says (drill_document n) document.now }
    requires contents { document.now ≡ drill_contents n }
    ensures { IfOk result (λ answer. OfDrill n (finding_status answer.finding) answer.text.items) }
{
    let net = net_of(alloc, document)?;
    let table = table_of(alloc, &net)?;
    let ranks = least(alloc, &table)?;
    let relations = relations_of(alloc, &table)?;
    let figures = Figures {
        drill: n,
        bytes,
        links: net.links(),
        greatest: greatest(ranks.as_slice()),
        relations,
    };
    with_verdict(alloc, figures, document, ranks)
}

/// The closure of a net that some timeline fits.
fn table_of(alloc: Global, net: &Net) -> Result<Closed, AllocError>
    requires { HasTimeline net.now }
    ensures closure { IfOk result (IsClosureOf net.now) }
    ensures few { IfOk result (λ table. table.points ≤ max_points) }
{
    match close(alloc, net) {
        Ok(table) => Ok(table),
        Err(CloseFault::Clash(_)) => unreachable!(),
        Err(CloseFault::Memory) => Err(AllocError),
    }
}

/// How many relations follow from a table.
fn relations_of(alloc: Global, table: &Closed) -> Result<usize, AllocError>
    requires { table.now.points % 2 ≡ 0 }
    ensures { IfOk result (λ number. (all : List Row) × AreRows table.now all × (number ≡ length all)) }
{
    let rows = rows(alloc, table)?;
    Ok(rows.as_slice().len())
}

/// The lines of a summary, of which the last is the verdict on evidence of the timeline.
fn with_verdict(
    alloc: Global,
    figures: Figures,
    document: &Document<'_>,
    ranks: Ranks,
) -> Result<Answer, AllocError>
    requires few { length ranks ≤ max_points }
    requires small { (p : ℕ) → p < length ranks → slice_index ranks p < length ranks }
    requires fit { (net : PlainNet) × IsNetOf document.now net × RanksFit net ranks }
    ensures finding { IfOk result (λ answer. answer.finding ≡ Finding.Done) }
    ensures text { IfOk result (λ answer. answer.text.items ≡ figure_lines figures ++ codes "verified timeline\n") }
{
    let evidence = timeline_text(alloc, ranks)?;
    let verdict = verdict(alloc, document, evidence.as_slice())?;
    let mut text = Vec::new(alloc);
    push_figures(&mut text, figures)?;
    text.extend_from_slice(verdict.text.as_slice())?;
    Ok(Answer {
        finding: verdict.finding,
        text,
    })
}

/// Appends a line for each number of a summary.
fn push_figures(out: &mut Vec<u8>, figures: Figures) -> Result<(), AllocError>
    ensures { OnOk result (out.new.items ≡ out.old.items ++ figure_lines figures) }
{
    push_numbered(out, b"drill ", u64::from(figures.drill))?;
    push_numbered(out, b"bytes ", figures.bytes as u64)?;
    push_numbered(out, b"links ", u64::from(figures.links))?;
    push_numbered(out, b"greatest ", u64::from(figures.greatest))?;
    push_numbered(out, b"relations ", figures.relations as u64)
}

/// The greatest of some numbers, of which there is one.
fn greatest(numbers: &[u32]) -> u32
    requires { 0 < length numbers.now }
    ensures { IsGreatest numbers.now result }
{
    numbers.iter().copied().max().unwrap_or(0)
}
