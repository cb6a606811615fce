//! How a run ends.
ghost use Rattle.std.specs.Prelude.{◌≡◌};
ghost use Rattle.runs.specs.Status.{status_number};

/// How a run ended. Its number is the exit status of the program.
#[derive(Clone, Copy, Debug, PartialEq, Eq)]
pub enum Status {
    /// The answer was written whole.
    Done,
    /// The document has a fault, which was named.
    DocFault,
    /// The links of the document cannot all be true.
    Clash,
    /// The words are of no known form.
    Usage,
    /// An input failed, or is not there.
    ReadFault,
    /// The sink failed before the answer was written whole.
    WriteFault,
    /// Out of memory. Nothing was written.
    NoMemory,
    /// The evidence is malformed, or is refused.
    EvidenceFault,
    /// A word names nothing in the document, or no relation.
    UnknownName,
    /// A file has more bytes than its limit.
    TooLong,
}

impl Status {
    /// The number of the status, from 0 to 9 in the order of the variants.
    pub fn number(self) -> u8
        ensures { result ≡ status_number self }
    {
        self as u8
    }
}
