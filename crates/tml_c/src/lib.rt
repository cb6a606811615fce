//! The library for C: `tml` over what the caller has in memory.
//!
//! Each call stands for itself: nothing is kept between calls, so any number of threads may make them.
#![tactic(auto)]

ghost use Rattle.std.specs.Prelude.{◌≡◌};
ghost use Rattle.net_core.specs.Limits.{max_document, max_evidence};
ghost use Rattle.tml_c.specs.Answers.{LeavesText, laid_over};

mod answer;
mod inputs;
mod sink;
mod words;

use answer::answer_to_bytes;
use net_core::{MAX_DOCUMENT, MAX_EVIDENCE};
use std::alloc::Global;

/// Answers the words, each ended by a zero byte, over two files by the names `first` and `second`. The answer is the
/// number of the status. Of the text as much as there is room for is written to `text`, and its length to `needed`.
#[unsafe(no_mangle)]
pub extern "C" fn tml_answer(
    alloc: Global,
    words: &[u8],
    first: &[u8],
    second: &[u8],
    text: &mut [u8],
    needed: &mut usize,
) -> u8
    ensures { LeavesText words.now first.now second.now result needed.new text.old text.new }
{
    let answer = answer_to_bytes(alloc, words, first, second);
    let said = answer.text();
    *needed = said.len();
    lay_over(said, text);
    answer.status().number()
}

/// The most bytes that a document may have.
#[unsafe(no_mangle)]
pub extern "C" fn tml_most_of_document() -> u32
    ensures { result ≡ max_document }
{
    MAX_DOCUMENT
}

/// The most bytes that a text of evidence, of a placing or of a cycle may have.
#[unsafe(no_mangle)]
pub extern "C" fn tml_most_of_evidence() -> u32
    ensures { result ≡ max_evidence }
{
    MAX_EVIDENCE
}

/// Writes as much of a text as there is room for.
fn lay_over(text: &[u8], room: &mut [u8])
    ensures { room.new ≡ laid_over text.now room.old }
{
    let count = text.len().min(room.len());
    room[..count].copy_from_slice(&text[..count]);
}
