//! Laws of commands: public functions that do nothing, each with the law as its contract. Those of each program are in `runs`.
ghost use Rattle.tml_tool.specs.Alike.{CanonicalIsAlike};
ghost use Rattle.tml_tool.specs.TwoRuns.{EvidenceIsVerified};

/// What commands print as evidence of a document, `verify` accepts over the same document: Done is a reply, and but for
/// one that is aborted the only one.
pub fn evidence_is_verified()
    ensures { EvidenceIsVerified }
{}

/// A canonical text is accepted, and is its own canonical text. What is asked of what it says has the replies that it has
/// of the document, if both are short enough to be read.
pub fn canonical_is_alike()
    ensures { CanonicalIsAlike }
{}
