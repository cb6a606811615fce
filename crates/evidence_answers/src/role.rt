//! Evidence, placings and cycles as files that are read.
use net_core::MAX_EVIDENCE;
use runs::Role;

/// Evidence of what is true of a document, or the first of two such files.
pub const EVIDENCE: Role = Role {
    word: b"EVIDENCE",
    limit: MAX_EVIDENCE,
    line: b"too long EVIDENCE\n",
};

/// The second of two files of evidence.
pub const SECOND: Role = Role {
    word: b"SECOND",
    limit: MAX_EVIDENCE,
    line: b"too long SECOND\n",
};

/// A placing of a document, or a cycle that shows that there is none.
pub const SECONDS: Role = Role {
    word: b"SECONDS",
    limit: MAX_EVIDENCE,
    line: b"too long SECONDS\n",
};
