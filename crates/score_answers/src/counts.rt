//! Lines that say how many of some there are.
ghost use Rattle.score_answers.specs.Counts.{of_line};
ghost use Rattle.std.specs.Prelude.{◌≡◌, ◌++◌, OnOk};

use answers::{push_number, push_numbered};
use std::alloc::AllocError;

/// Appends a line: a word that ends in a space, and how many of how many.
pub fn push_of(out: &mut Vec<u8>, word: &[u8], part: u64, whole: u64) -> Result<(), AllocError>
    ensures { OnOk result (out.new.items ≡ out.old.items ++ of_line word.now part whole) }
{
    out.extend_from_slice(word)?;
    push_number(out, part)?;
    push_numbered(out, b" of ", whole)
}
