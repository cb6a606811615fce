//! Reading placings.
ghost use Rattle.line_texts.specs.Given.{GivesOrStops};
ghost use Rattle.line_texts.specs.Lines.{lines_of};
ghost use Rattle.line_texts.specs.Reading.{line_at};
ghost use Rattle.seconds_core.specs.Evidence.{ArePairs};
ghost use Rattle.seconds_format.specs.Readers as readers;
ghost use Rattle.seconds_format.specs.Texts.{pairs_of_seconds};
ghost use Rattle.seconds_format.specs.Words as words;
ghost use Rattle.std.specs.Prelude.{IfOk, OnOk, length, ◌%◌, ◌*◌, ◌+◌, ◌<◌, ◌≡◌, ◌++◌, ◌∷◌, []};

use crate::seconds::pair_of;
use line_texts::{Stop, next_line};
use net_core::{List, Memory};
use seconds_core::Placing;
use std::alloc::Global;

/// The placing of this number of intervals, and what follows it.
pub fn placing_at<'t>(
    alloc: Global,
    count: u32,
    text: &'t [u8],
) -> Result<(Placing, &'t [u8]), Stop<'t>>
    ensures pairs { GivesOrStops (λ x. (pairs_of_seconds x.0, lines_of x.1.now)) result (readers.pairs_at count (lines_of text.now)) }
    ensures placing { IfOk result (λ x. ArePairs x.0) }
{
    let (seconds, rest) = pairs_at(alloc, count, text)?;
    Ok((Placing::from_vec(seconds.into_vec()), rest))
}

/// The seconds of this number of intervals, and what follows them. Nothing is reserved by the count, which comes from a
/// stranger.
fn pairs_at<'t>(
    alloc: Global,
    count: u32,
    text: &'t [u8],
) -> Result<(List<i64>, &'t [u8]), Stop<'t>>
    ensures pairs { GivesOrStops (λ x. (pairs_of_seconds x.0, lines_of x.1.now)) result (readers.pairs_at count (lines_of text.now)) }
    ensures size { IfOk result (λ x. length x.0 ≡ 2 * count) }
{
    let mut seconds = List::new(alloc);
    let mut rest = text;
    for _ in 0..count {
        let ((start, finish), after) = pair_at(rest)?;
        push_pair(&mut seconds, start, finish)?;
        rest = after;
    }
    Ok((seconds, rest))
}

/// Appends the seconds of an interval to those of others.
#[tactic(auto, using(crate::proofs::PairLaws::pairs_push))]
fn push_pair(seconds: &mut List<i64>, start: i64, finish: i64) -> Result<(), Memory>
    requires { length seconds.old % 2 ≡ 0 }
    ensures pairs { OnOk result (pairs_of_seconds seconds.new ≡ pairs_of_seconds seconds.old ++ (start, finish) ∷ []) }
    ensures size { OnOk result (length seconds.new ≡ length seconds.old + 2) }
{
    seconds.push(start)?;
    seconds.push(finish)
}

/// The seconds of an interval, and what follows its line.
fn pair_at(text: &[u8]) -> Result<((i64, i64), &[u8]), Stop<'_>>
    ensures { GivesOrStops (λ x. (x.0, lines_of x.1.now)) result (line_at words.pair_of (lines_of text.now)) }
{
    let (line, rest) = next_line(text).ok_or(Stop::BadLine(text))?;
    let pair = pair_of(line).ok_or(Stop::BadLine(text))?;
    Ok((pair, rest))
}
