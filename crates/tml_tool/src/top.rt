//! The program, and the top call.
ghost use Rattle.runs.specs.Outcome.{Outcome};
ghost use Rattle.runs.specs.Words.{texts_of};
ghost use Rattle.std.specs.Prelude.{◌≡◌, ◌↔◌, None};
ghost use Rattle.tml_tool.specs.Commands.{form_of, limits_of, rows_of};

use crate::commands::{Form, reply_with, usage_text};
use answers::DOC;
use document_answers::Spans;
use named::named_by;
use runs::{Program, Reply, Status, reply_of_file};
use std::alloc::Global;
use tml_io::{Inputs, Sink};

/// The program `tml`. No words stand for `spans` of standard input.
#[derive(Clone, Copy)]
pub struct Tml;

impl Program for Tml {
    ghost use Rattle.std.specs.Prelude.{◌≡◌, None};
    ghost use Rattle.tml_tool.specs.Commands.{form_of, is_free as is_free_of, limits_of, rows_of};

    ghost rows = { λ words. rows_of (form_of words) };

    ghost limits = { λ words. limits_of (form_of words) };

    ghost is_free = { λ words. is_free_of (form_of words) };

    ghost lack_form = { λ words. form_of words ≡ None };

    fn reply<I: Inputs>(&self, alloc: Global, words: &[String], inputs: &mut I) -> Reply {
        let Some((word, arguments)) = words.split_first() else {
            return reply_of_file(alloc, &Spans, DOC, "-", inputs);
        };
        let Some(form) = named_by::<Form>(word.as_bytes()) else {
            return Reply::Usage(usage_text());
        };
        if arguments.len() == form.arguments() {
            reply_with(alloc, form, arguments, inputs)
        } else {
            Reply::Usage(usage_text())
        }
    }

    fn all_are_answered() {}
}

/// Does what the words mean: reads the files that they name from `inputs`, and writes the answer, or the text of a
/// refusal, to `sink`, as `runs::run` does. The reply is made whole before its first byte is written.
///
/// The refusals come in this order: Usage, ReadFault or TooLong of a file, what the contents of the files read so far
/// decide, and so on with the next file, WriteFault. NoMemory may come at any place between Usage and the writing.
pub fn run<I: Inputs, S: Sink>(
    alloc: Global,
    words: &[String],
    inputs: &mut I,
    sink: &mut S,
) -> Status
    ensures outcome { let form = form_of (texts_of words.now) in
        Outcome I.known S.known (rows_of form) (limits_of form) inputs.old inputs.new sink.old sink.new result }
    ensures usage { (result ≡ Status.Usage) ↔ (form_of (texts_of words.now) ≡ None) }
{
    runs::run(alloc, &Tml, words, inputs, sink)
}
