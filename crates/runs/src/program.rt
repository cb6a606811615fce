//! A run of a program: the reply to its words is made whole, and then it is written.
ghost use Rattle.runs.specs.Answered.{AreAnswered};
ghost use Rattle.runs.specs.Outcome.{Outcome};
ghost use Rattle.runs.specs.Replied.{IsReplyTo};
ghost use Rattle.runs.specs.View.{status_of, text_of};
ghost use Rattle.runs.specs.Words.{texts_of};
ghost use Rattle.std.specs.Prelude.{◌≡◌, ◌↔◌, List, ℕ};

use crate::reply::{Reply, deliver};
use crate::status::Status;
use std::alloc::Global;
use tml_io::{Inputs, Sink};

/// A program, by its words.
pub trait Program {
    ghost use Rattle.std.specs.Prelude.{List, ℕ};
    ghost use Rattle.runs.specs.Rows.{Freedom, Rows};

    /// The rows of some words.
    ghost rows: { List (List ℕ) → Rows };

    /// How long the files may be that some words name, in the order of reading.
    ghost limits: { List (List ℕ) → List ℕ };

    /// After which contents the text of an answer to some words is free.
    ghost is_free: { List (List ℕ) → Freedom };

    /// Some words have no form.
    ghost lack_form: { List (List ℕ) → Type 0 };

    /// The reply to some words.
    fn reply<I: Inputs>(&self, alloc: Global, words: &[String], inputs: &mut I) -> Reply
        ensures reply { IsReplyTo I.known (rows (texts_of words.now)) (limits (texts_of words.now))
            inputs.old inputs.new (status_of result) (text_of result) }
        ensures usage { (status_of result ≡ Status.Usage) ↔ lack_form (texts_of words.now) };

    /// All words are answered: a function that does nothing, with the law as its contract.
    fn all_are_answered()
        ensures { (words : List (List ℕ)) → AreAnswered (rows words) (is_free words) };
}

/// Does what the words mean: reads the files that they name from `inputs`, and writes the answer, or the text of a
/// refusal, to `sink`. The reply is made whole before its first byte is written.
pub fn run<P: Program, I: Inputs, S: Sink>(
    alloc: Global,
    program: &P,
    words: &[String],
    inputs: &mut I,
    sink: &mut S,
) -> Status
    // There is a reply to the words: a status and a text. The bytes that were taken are those of the files that were read for
    // it, and no other names were started than those of files that are reached one after another, each once. No more calls read the files than their greatest lengths require, nor more than two for each file besides one for
    // each byte that was taken. A fault of reading is the reply only if the count of faults rose in this call, or has its
    // greatest value, and sound inputs fail nothing if each file that is reached is there. Inputs are untouched if no file is
    // reached. What is known of them stays known, and no count of faults falls.
    //
    // The text is what was written, in at most as many calls as it has bytes. The status is that of the reply, or WriteFault
    // if the sink failed and it was Done. A sink of known room fails nothing before it is full. Out of memory nothing was
    // written.
    ensures outcome { Outcome I.known S.known (P.rows (texts_of words.now)) (P.limits (texts_of words.now))
        inputs.old inputs.new sink.old sink.new result }
    ensures usage { (result ≡ Status.Usage) ↔ P.lack_form (texts_of words.now) }
{
    deliver(sink, program.reply(alloc, words, inputs))
}
