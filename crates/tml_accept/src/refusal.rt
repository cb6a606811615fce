//! Why a document is not accepted.
ghost use Rattle.std.specs.Prelude.{◌≡◌};
ghost use Rattle.tml_accept.specs.Refusals.{refusal_of};

use faults::FaultKind;

/// Why a document is not accepted.
#[derive(Clone, Copy, Debug, PartialEq, Eq)]
pub enum Refusal {
    /// Its first fault: the kind, and the place, a byte offset.
    Fault { kind: FaultKind, place: u32 },
    /// Out of memory.
    Memory,
}

impl Refusal {
    /// The refusal by the kind and the place of a fault, or out of memory, which has none.
    pub fn of(found: Option<(FaultKind, u32)>) -> Refusal
        ensures { result ≡ refusal_of found }
    {
        match found {
            Some((kind, place)) => Refusal::Fault { kind, place },
            None => Refusal::Memory,
        }
    }
}
