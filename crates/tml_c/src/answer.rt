//! What a call answers.
ghost use Rattle.std.specs.Prelude.{◌≡◌, []};
ghost use Rattle.tml_c.specs.Answers.{IsCallAnswer, IsReply};
ghost use Rattle.tml_c.specs.Given.{two_files};
ghost use Rattle.tml_c.specs.View.{status_of, text_of};
ghost use Rattle.runs.specs.Words.{texts_of};

use crate::inputs::TwoFiles;
use crate::sink::Growing;
use crate::words::words_in;
use std::alloc::Global;
use tml_tool::{Status, run, usage_text};

/// What is answered to some words.
#[derive(Drop)]
pub enum CallAnswer {
    /// That they have no form. This text takes no memory.
    Usage,
    /// A status, and the text that says it.
    Made(Status, Vec<u8>),
}

impl CallAnswer {
    pub fn status(&self) -> Status
        ensures { result ≡ status_of self.now }
    {
        match self {
            CallAnswer::Usage => Status::Usage,
            CallAnswer::Made(status, _) => *status,
        }
    }

    pub fn text(&self) -> &[u8]
        ensures { result.now ≡ text_of self.now }
    {
        match self {
            CallAnswer::Usage => usage_text(),
            CallAnswer::Made(_, text) => text.as_slice(),
        }
    }
}

/// Out of memory there is no text.
fn out_of_memory(alloc: Global) -> CallAnswer
    ensures status { status_of result ≡ Status.NoMemory }
    ensures text { text_of result ≡ [] }
{
    CallAnswer::Made(Status::NoMemory, Vec::new(alloc))
}

/// The answer to the words in some bytes, over two files. Where the bytes have none, no memory is needed.
pub fn answer_to_bytes(alloc: Global, words: &[u8], first: &[u8], second: &[u8]) -> CallAnswer
    ensures { IsCallAnswer words.now first.now second.now (status_of result) (text_of result) }
{
    match words_in(alloc, words) {
        Ok(Some(words)) => answer_to_words(alloc, words.as_slice(), first, second),
        Ok(None) => CallAnswer::Usage,
        Err(_) => out_of_memory(alloc),
    }
}

/// The answer to some words. A text for which there was no memory is given up, with its status, unless it is the usage
/// text.
fn answer_to_words(alloc: Global, words: &[String], first: &[u8], second: &[u8]) -> CallAnswer
    ensures { IsReply (two_files first.now second.now) (texts_of words.now) (status_of result) (text_of result) }
{
    let mut inputs = TwoFiles::new(first, second);
    let mut sink = Growing::new(alloc);
    let status = run(alloc, words, &mut inputs, &mut sink);
    if let Status::Usage = status {
        return CallAnswer::Usage;
    }
    match sink.into_text() {
        Some(text) => CallAnswer::Made(status, text),
        None => out_of_memory(alloc),
    }
}
