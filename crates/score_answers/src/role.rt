//! A key as a file that is read.
use net_core::MAX_DOCUMENT;
use runs::Role;

/// A key: a document that another one is scored against.
pub const KEY: Role = Role {
    word: b"KEY",
    limit: MAX_DOCUMENT,
    line: b"too long KEY\n",
};
