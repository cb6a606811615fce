//! Writing placings and cycles.
ghost use Rattle.seconds_core.specs.Evidence.{ArePairs, max_lines};
ghost use Rattle.seconds_core.specs.View.{evidence_of};
ghost use Rattle.seconds_format.specs.Texts.{HasLineNumbers, IsLong, IsLongPair, IsSecondsText, IsWellFormedSeconds, seconds_at_line, cycle_line, pairs_of_seconds};
ghost use Rattle.seconds_format.specs.Written as written;
ghost use Rattle.std.specs.Fmt.{signed_decimal};
ghost use Rattle.std.specs.List.{All, AllByRecursion, flat_map};
ghost use Rattle.std.specs.Prelude.{IfOk, OnOk, codes, length, ◌++◌, ◌<◌, ◌≡◌};

use itoa::Buffer;
use line_texts::{push_one, push_two};
use net_core::{List, Memory};
use seconds_core::{Line, SecondsEvidence};
use std::alloc::{AllocError, Global};

/// The text of a placing or a cycle.
///
/// # Errors
///
/// Out of memory.
pub fn write_seconds(alloc: Global, evidence: &SecondsEvidence) -> Result<List<u8>, Memory>
    ensures { IfOk result (λ out. IsSecondsText (evidence_of evidence.now) out) }
{
    Ok(List::from_vec(text_bytes(alloc, evidence)?))
}

fn text_bytes(alloc: Global, evidence: &SecondsEvidence) -> Result<Vec<u8>, AllocError>
    ensures bytes { IfOk result (λ out. out.items ≡ written.text_bytes (evidence_of evidence.now)) }
    ensures good { IfOk result (λ out. IsWellFormedSeconds (evidence_of evidence.now)) }
{
    let mut out = Vec::from_slice(alloc, b"tml-seconds 1\n")?;
    push_body(&mut out, evidence)?;
    out.extend_from_slice(b"end\n")?;
    Ok(out)
}

/// Appends what stands between the first line and the last one.
fn push_body(out: &mut Vec<u8>, evidence: &SecondsEvidence) -> Result<(), AllocError>
    ensures bytes { OnOk result (out.new.items ≡ out.old.items ++ written.seconds_body_bytes (evidence_of evidence.now)) }
    ensures good { OnOk result (IsWellFormedSeconds (evidence_of evidence.now)) }
{
    match evidence {
        SecondsEvidence::Placing(placing) => push_placing(out, placing.as_slice()),
        SecondsEvidence::Cycle(cycle) => push_cycle(out, cycle.as_slice()),
    }
}

#[tactic(auto, using(crate::proofs::PairLaws::pairs_half, crate::proofs::PairLaws::all_long))]
fn push_placing(out: &mut Vec<u8>, seconds: &[i64]) -> Result<(), AllocError>
    requires { ArePairs seconds.now }
    ensures bytes { OnOk result (out.new.items ≡ out.old.items ++ written.placing_bytes seconds.now) }
    ensures good { OnOk result (All IsLong seconds.now) }
{
    push_one(out, b"placing ", (seconds.len() / 2) as u32)?;
    push_pairs(out, seconds)
}

fn push_pairs(out: &mut Vec<u8>, seconds: &[i64]) -> Result<(), AllocError>
    ensures bytes { OnOk result (out.new.items ≡ out.old.items ++ flat_map seconds_at_line (pairs_of_seconds seconds.now)) }
    ensures good { OnOk result (AllByRecursion IsLongPair (pairs_of_seconds seconds.now)) }
{
    let mut rest = seconds;
    while let [start, finish, after @ ..] = rest {
        push_pair(out, *start, *finish)?;
        rest = after;
    }
    Ok(())
}

/// The line of an interval.
fn push_pair(out: &mut Vec<u8>, start: i64, finish: i64) -> Result<(), AllocError>
    ensures { OnOk result (out.new.items ≡ out.old.items ++ seconds_at_line (start, finish)) }
{
    out.extend_from_slice(b"at ")?;
    push_second(out, start)?;
    out.extend_from_slice(b" ")?;
    push_second(out, finish)?;
    out.extend_from_slice(b"\n")
}

fn push_second(out: &mut Vec<u8>, second: i64) -> Result<(), AllocError>
    ensures { OnOk result (out.new.items ≡ out.old.items ++ signed_decimal second) }
{
    let mut digits = Buffer::new();
    out.extend_from_slice(digits.format(second).as_bytes())
}

fn push_cycle(out: &mut Vec<u8>, lines: &[Line]) -> Result<(), AllocError>
    requires { length lines.now < max_lines }
    ensures bytes { OnOk result (out.new.items ≡ out.old.items ++ written.cycle_bytes lines.now) }
    ensures good { OnOk result (All HasLineNumbers lines.now) }
{
    push_one(out, b"cycle ", lines.len() as u32)?;
    push_lines(out, lines)
}

fn push_lines(out: &mut Vec<u8>, lines: &[Line]) -> Result<(), AllocError>
    ensures bytes { OnOk result (out.new.items ≡ out.old.items ++ flat_map cycle_line lines.now) }
    ensures good { OnOk result (All HasLineNumbers lines.now) }
{
    for line in lines {
        push_line(out, *line)?;
    }
    Ok(())
}

/// What names a constraint.
fn push_line(out: &mut Vec<u8>, line: Line) -> Result<(), AllocError>
    ensures line { OnOk result (out.new.items ≡ out.old.items ++ cycle_line line) }
    ensures good { HasLineNumbers line }
{
    match line {
        Line::Span { interval } => push_one(out, b"span ", interval),
        Line::Via { link, atom } => push_two(out, b"via ", link, atom),
        Line::Lower { point } => push_one(out, b"lower ", point),
        Line::Upper { point } => push_one(out, b"upper ", point),
        Line::Least { interval } => push_one(out, b"least ", interval),
        Line::Most { interval } => push_one(out, b"most ", interval),
    }
}
