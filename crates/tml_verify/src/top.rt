//! The program, and the top call.
ghost use Rattle.runs.specs.Outcome.{Outcome};
ghost use Rattle.runs.specs.Words.{texts_of};
ghost use Rattle.std.specs.Prelude.{◌≡◌, ◌↔◌, None};
ghost use Rattle.tml_verify.specs.Words.{asked_of, limits_of, rows_of, usage};

use crate::either::EvidenceOrSeconds;
use answers::reply_of_judged;
use evidence_answers::EVIDENCE;
use runs::{Program, Reply, Status};
use std::alloc::Global;
use tml_io::{Inputs, Sink};

/// The usage text: a line for each kind of file.
fn usage_text() -> &'static [u8]
    ensures { result.now ≡ usage }
{
    b"usage:
tml-verify DOC EVIDENCE
tml-verify DOC SECONDS
"
}

/// The program `tml-verify`.
#[derive(Clone, Copy)]
pub struct TmlVerify;

impl Program for TmlVerify {
    ghost use Rattle.runs.specs.Rows.{NeverFree};
    ghost use Rattle.std.specs.Prelude.{◌≡◌, None};
    ghost use Rattle.tml_verify.specs.Words.{asked_of, limits_of, rows_of};

    ghost rows = { λ words. rows_of (asked_of words) };

    ghost limits = { λ words. limits_of (asked_of words) };

    ghost is_free = { λ _. NeverFree };

    ghost lack_form = { λ words. asked_of words ≡ None };

    fn reply<I: Inputs>(&self, alloc: Global, words: &[String], inputs: &mut I) -> Reply {
        let [doc, other] = words else {
            return Reply::Usage(usage_text());
        };
        reply_of_judged(
            alloc,
            &EvidenceOrSeconds,
            doc.as_str(),
            EVIDENCE,
            other.as_str(),
            inputs,
        )
    }

    fn all_are_answered() {}
}

/// Does what the words mean: reads the document and the other file from `inputs`, and writes the answer, or the text of a
/// refusal, to `sink`, as `runs::run` does. The reply is made whole before its first byte is written.
///
/// The refusals come in this order: Usage, ReadFault or TooLong of the document, its fault, ReadFault or TooLong of the
/// other file, what that holds, WriteFault. NoMemory may come at any place between Usage and the writing.
pub fn run<I: Inputs, S: Sink>(
    alloc: Global,
    words: &[String],
    inputs: &mut I,
    sink: &mut S,
) -> Status
    ensures outcome { let asked = asked_of (texts_of words.now) in
        Outcome I.known S.known (rows_of asked) (limits_of asked) inputs.old inputs.new sink.old sink.new result }
    ensures usage { (result ≡ Status.Usage) ↔ (asked_of (texts_of words.now) ≡ None) }
{
    runs::run(alloc, &TmlVerify, words, inputs, sink)
}
