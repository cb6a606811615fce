//! The text of a call, as it grows.
ghost use Rattle.std.specs.Prelude.{◌≡◌, ◌≢◌, [], Some, MatchOption};

use std::alloc::Global;
use tml_io::{Failed, Sink};

/// A sink that keeps what is written. A write fails if there is no memory for it, and no other one does.
#[derive(Drop)]
pub struct Growing {
    text: Vec<u8>,
    faults: u64,
}

impl Growing {
    /// An empty sink. It takes no memory.
    pub fn new(alloc: Global) -> Growing
        ensures written { (⟦<Growing as Sink>⟧.known result).written ≡ Some [] }
        ensures faults { (⟦<Growing as Sink>⟧.known result).faults ≡ 0 }
    {
        Growing {
            text: Vec::new(alloc),
            faults: 0,
        }
    }

    /// What was written, unless there was no memory for some of it.
    pub fn into_text(self) -> Option<Vec<u8>>
        ensures { MatchOption result ((⟦<Growing as Sink>⟧.known self).faults ≢ 0)
            (λ text. ((⟦<Growing as Sink>⟧.known self).faults ≡ 0) × ((⟦<Growing as Sink>⟧.known self).written ≡ Some text.items)) }
    {
        if self.faults == 0 {
            Some(self.text)
        } else {
            None
        }
    }
}

impl Sink for Growing {
    ghost use Rattle.std.specs.Prelude.{Some, None};

    ghost known = { λ s. record { written = Some s.text.items; room = None; calls = 0; faults = s.faults } };

    fn write(&mut self, piece: &[u8]) -> Result<usize, Failed> {
        match self.text.extend_from_slice(piece) {
            Ok(()) => Ok(piece.len()),
            Err(_) => {
                self.faults = self.faults.saturating_add(1);
                Err(Failed)
            }
        }
    }
}
