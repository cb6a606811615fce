//! Canonical texts, of documents and of trees: attributes in the order of their names, values between double quotes, and
//! nothing else changed.
#![tactic(auto)]

mod canonical;
mod document;
mod laws;
mod writer;

pub use canonical::canon;
pub use document::canonical_text;
pub use laws::{
    canonical_is_itself, canonical_is_read, canonical_is_same, canonical_says_the_same,
    one_canonical_text,
};
