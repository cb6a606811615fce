//! What `tml` answers, and whether it is what is wanted.
ghost use Rattle.std.specs.Prelude.{◌≡◌, ◌↔◌, IsTrue, IfOk};
ghost use Rattle.tml_io.specs.InMemory.{entries};
ghost use Rattle.command_rows.specs.Answers.{IsRowAnswer};
ghost use Rattle.runs.specs.Status.{status_number};

use crate::devices::Devices;
use std::alloc::{AllocError, Global};
use tml_io::{MemoryInputs, MemorySink};
use tml_tool::{Status, run};

/// A status, and what was written.
#[derive(Drop)]
pub struct WrittenAnswer {
    pub status: Status,
    pub text: Vec<u8>,
}

impl WrittenAnswer {
    /// Whether this is what is wanted.
    pub fn is(&self, text: &[u8], status: u8) -> bool
        ensures { IsTrue result ↔ ((status_number self.now.status ≡ status) × (self.now.text.items ≡ text.now)) }
    {
        self.status.number() == status && self.text.as_slice() == text
    }
}

/// What `tml` answers to these words over these files, of which the first of a name counts.
pub fn run_words(
    alloc: Global,
    words: &[String],
    files: Vec<(String, Vec<u8>)>,
    devices: &Devices,
) -> Result<WrittenAnswer, AllocError>
    ensures { IfOk result (λ a. IsRowAnswer (entries files.items) words.now a.status a.text.items) }
{
    let failing_reads = devices.failing_reads.clone()?;
    let failing_writes = devices.failing_writes.clone()?;
    let mut inputs = MemoryInputs::new(files, devices.reads_of, failing_reads);
    let mut sink = MemorySink::new(alloc, devices.room, devices.writes_of, failing_writes)?;
    let status = run(alloc, words, &mut inputs, &mut sink);
    let text = Vec::from_slice(alloc, sink.written())?;
    Ok(WrittenAnswer { status, text })
}
