//! The reply to a command: the answer, or why there is none; and its writing.
ghost use Rattle.std.specs.Prelude.{◌≡◌, length, OnOk, OnErr};
ghost use Rattle.std.specs.Io.KnownBytes.{Appends};
ghost use Rattle.tml_io.specs.Faults.{HasCause, RisesAtMost};
ghost use Rattle.tml_io.specs.Room.{FaultsOnlyWhenFull};
ghost use Rattle.tml_io.specs.Whole.{WritesPrefix};
ghost use Rattle.runs.specs.Outcome.{IsDelivered, before_writing};
ghost use Rattle.runs.specs.View.{status_of, text_of, reply_of};

use crate::Status;
use crate::answer::{Answer, Finding};
use std::alloc::AllocError;
use tml_io::{Sink, WriteFault, write_all};

/// The reply to a command, before anything of it is written.
#[derive(Drop)]
pub enum Reply {
    /// There is an answer.
    Answered(Answer),
    /// The words are of no known form. The text lists the forms.
    Usage(&'static [u8]),
    /// An input failed, or is not there.
    ReadFault,
    /// A file has more bytes than its limit, and the line says which.
    TooLong(&'static [u8]),
    /// Out of memory.
    NoMemory,
}

impl Reply {
    /// The answer, where there was memory for it.
    pub fn from_answer(answer: Result<Answer, AllocError>) -> Reply
        ensures { result ≡ reply_of answer }
    {
        match answer {
            Ok(answer) => Reply::Answered(answer),
            Err(AllocError) => Reply::NoMemory,
        }
    }

    fn status(&self) -> Status
        ensures { result ≡ status_of self.now }
    {
        match self {
            Reply::Answered(answer) => match answer.finding {
                Finding::Done => Status::Done,
                Finding::DocFault => Status::DocFault,
                Finding::Clash => Status::Clash,
                Finding::EvidenceFault => Status::EvidenceFault,
                Finding::UnknownName => Status::UnknownName,
            },
            Reply::Usage(_) => Status::Usage,
            Reply::ReadFault => Status::ReadFault,
            Reply::TooLong(_) => Status::TooLong,
            Reply::NoMemory => Status::NoMemory,
        }
    }

    /// Writes the text. Out of memory there is none, and the sink is left alone.
    fn write_text<S: Sink>(&self, sink: &mut S) -> Result<(), WriteFault>
        ensures ok { OnOk result (Appends (S.known sink.old).written (S.known sink.new).written (text_of self.now)) }
        ensures err { OnErr result (WritesPrefix (S.known sink.old).written (S.known sink.new).written (text_of self.now)) }
        ensures calls { RisesAtMost (length (text_of self.now)) (S.known sink.old).calls (S.known sink.new).calls }
        ensures cause { HasCause (S.known sink.old).faults (S.known sink.new).faults result }
        ensures untouched { status_of self.now ≡ Status.NoMemory → sink.new ≡ sink.old }
        ensures no_fault { FaultsOnlyWhenFull (S.known sink.old).room (S.known sink.new).room (S.known sink.old).faults (S.known sink.new).faults }
    {
        match self {
            Reply::Answered(answer) => write_all(sink, answer.text.as_slice()),
            Reply::Usage(text) => write_all(sink, text),
            Reply::ReadFault => write_all(sink, b"read fault\n"),
            Reply::TooLong(line) => write_all(sink, line),
            Reply::NoMemory => write_all(sink, b""),
        }
    }
}

/// Writes the text of a reply, and answers the status of the run. A fault of the sink changes the status only if it
/// was Done.
pub fn deliver<S: Sink>(sink: &mut S, reply: Reply) -> Status
    ensures status { before_writing result ≡ status_of reply }
    ensures delivered { IsDelivered S.known (text_of reply) sink.old sink.new result }
{
    let status = reply.status();
    let written = reply.write_text(sink);
    if written.is_err() && status == Status::Done {
        return Status::WriteFault;
    }
    status
}
