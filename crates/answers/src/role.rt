//! The document as a file that is read.
use net_core::MAX_DOCUMENT;
use runs::Role;

/// A document.
pub const DOC: Role = Role {
    word: b"DOC",
    limit: MAX_DOCUMENT,
    line: b"too long DOC\n",
};
