//! The table of commands: of each form of words its word, its arguments and its reply. A further command adds a line to
//! each.
ghost use Rattle.std.proofs.Common.{rules};
ghost use Rattle.std.specs.Prelude.{◌≡◌, ◌<◌, ◌↔◌, length, None};
ghost use Rattle.runs.specs.Replied.{IsReplyTo};
ghost use Rattle.runs.specs.View.{status_of, text_of};
ghost use Rattle.runs.specs.Words.{texts_of};
ghost use Rattle.tml_tool.specs.Commands.{arguments_of, limits_of, rows_of, taken_form, usage};
ghost use Rattle.answers.specs.Commands.{argument};

use answers::{DOC, reply_of_document, reply_of_judged};
use document_answers::{Canon, Check, Dates, Spans};
use evidence_answers::{Confirm, EVIDENCE, Renew, SECONDS, Verify, reply_of_join};
use named::Named;
use order_answers::{Ask, Relations, Solve, drill_number, drill_summary};
use possible_answers::{Matrix, Possible};
use runs::{Reply, Status, reply_of_file};
use score_answers::{KEY, Reduce, Score};
use seconds_answers::Seconds;
use std::alloc::Global;
use tml_io::Inputs;

/// A form of words.
#[derive(Clone, Copy)]
pub enum Form {
    /// The units of a document.
    Spans,
    /// Whether a document is well annotated, and how many tags of each kind it has.
    Check,
    /// When the times of a document are by the calendar.
    Dates,
    /// In what order the intervals of a document can lie.
    Solve,
    /// Whether a relation holds between two intervals of a document.
    Ask,
    /// Which relations follow from the links and times of a document.
    Relations,
    /// The canonical text of a document.
    Canon,
    /// What evidence of a document shows.
    Verify,
    /// The summary of a drill.
    Drill,
    /// Evidence as a text of version 2.
    Renew,
    /// The claims of two files of evidence as one text.
    Join,
    /// Which base relations two intervals of a document can have, each with a timeline.
    Possible,
    /// Which base relations each two intervals of a document can have.
    Matrix,
    /// The links of a document without those that follow from others.
    Reduce,
    /// How much of a document follows from a key, and how much of the key from the document.
    Score,
    /// A placing of a document in whole seconds, or a cycle that shows that there is none.
    Seconds,
    /// Whether a placing or a cycle of a document is one.
    Confirm,
}

impl Named for Form {
    ghost use Rattle.tml_tool.specs.Commands.{all_forms, word_of};

    ghost text_of = { word_of };

    ghost all_of = { all_forms };

    ghost apart = { Prim.search rules };

    fn all() -> &'static [Form] {
        &[
            Form::Spans,
            Form::Check,
            Form::Dates,
            Form::Solve,
            Form::Ask,
            Form::Relations,
            Form::Canon,
            Form::Verify,
            Form::Drill,
            Form::Renew,
            Form::Join,
            Form::Possible,
            Form::Matrix,
            Form::Reduce,
            Form::Score,
            Form::Seconds,
            Form::Confirm,
        ]
    }

    fn text(self) -> &'static [u8] {
        match self {
            Form::Spans => b"spans",
            Form::Check => b"check",
            Form::Dates => b"dates",
            Form::Solve => b"solve",
            Form::Ask => b"ask",
            Form::Relations => b"relations",
            Form::Canon => b"canon",
            Form::Verify => b"verify",
            Form::Drill => b"drill",
            Form::Renew => b"renew",
            Form::Join => b"join",
            Form::Possible => b"possible",
            Form::Matrix => b"matrix",
            Form::Reduce => b"reduce",
            Form::Score => b"score",
            Form::Seconds => b"seconds",
            Form::Confirm => b"confirm",
        }
    }
}

impl Form {
    /// How many arguments the form has.
    pub fn arguments(self) -> usize
        ensures { result ≡ length (arguments_of self) }
    {
        match self {
            Form::Ask => 4,
            Form::Possible => 3,
            Form::Verify | Form::Join | Form::Score | Form::Confirm => 2,
            _ => 1,
        }
    }
}

/// The usage text: a line for each form.
pub fn usage_text() -> &'static [u8]
    ensures { result.now ≡ usage }
{
    b"usage:
tml spans DOC
tml check DOC
tml dates DOC
tml solve DOC
tml ask DOC X REL Y
tml relations DOC
tml canon DOC
tml verify DOC EVIDENCE
tml drill N
tml renew EVIDENCE
tml join EVIDENCE SECOND
tml possible DOC X Y
tml matrix DOC
tml reduce DOC
tml score DOC KEY
tml seconds DOC
tml confirm DOC SECONDS
"
}

/// The reply to a form with this number of arguments: the answer, or the usage text if the form does not take them.
pub fn reply_with<I: Inputs>(
    alloc: Global,
    form: Form,
    arguments: &[String],
    inputs: &mut I,
) -> Reply
    requires { length arguments.now ≡ length (arguments_of form) }
    ensures reply { let asked = taken_form form (texts_of arguments.now) in
        IsReplyTo I.known (rows_of asked) (limits_of asked) inputs.old inputs.new (status_of result) (text_of result) }
    ensures usage { (status_of result ≡ Status.Usage) ↔ (taken_form form (texts_of arguments.now) ≡ None) }
{
    let first = word(arguments, 0);
    match form {
        Form::Spans => reply_of_file(alloc, &Spans, DOC, first, inputs),
        Form::Check => reply_of_document(alloc, &Check, first, inputs),
        Form::Dates => reply_of_document(alloc, &Dates, first, inputs),
        Form::Solve => reply_of_document(alloc, &Solve, first, inputs),
        Form::Ask => {
            let asked = Ask {
                x: word(arguments, 1).as_bytes(),
                rel: word(arguments, 2).as_bytes(),
                y: word(arguments, 3).as_bytes(),
            };
            reply_of_document(alloc, &asked, first, inputs)
        }
        Form::Relations => reply_of_document(alloc, &Relations, first, inputs),
        Form::Canon => reply_of_file(alloc, &Canon, DOC, first, inputs),
        Form::Verify => {
            reply_of_judged(alloc, &Verify, first, EVIDENCE, word(arguments, 1), inputs)
        }
        Form::Drill => match drill_number(first) {
            Some(n) => Reply::from_answer(drill_summary(alloc, n)),
            None => Reply::Usage(usage_text()),
        },
        Form::Renew => reply_of_file(alloc, &Renew, EVIDENCE, first, inputs),
        Form::Join => reply_of_join(alloc, first, word(arguments, 1), inputs),
        Form::Possible => {
            let asked = Possible {
                x: word(arguments, 1).as_bytes(),
                y: word(arguments, 2).as_bytes(),
            };
            reply_of_document(alloc, &asked, first, inputs)
        }
        Form::Matrix => reply_of_document(alloc, &Matrix, first, inputs),
        Form::Reduce => reply_of_document(alloc, &Reduce, first, inputs),
        Form::Score => reply_of_judged(alloc, &Score, first, KEY, word(arguments, 1), inputs),
        Form::Seconds => reply_of_document(alloc, &Seconds, first, inputs),
        Form::Confirm => {
            reply_of_judged(alloc, &Confirm, first, SECONDS, word(arguments, 1), inputs)
        }
    }
}

/// The argument of this number.
fn word(arguments: &[String], k: usize) -> &str
    requires { k < length arguments.now }
    ensures { result.now ≡ argument (texts_of arguments.now) k }
{
    arguments[k].as_str()
}
