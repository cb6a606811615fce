//! A plane of bits: rows of as many words of 64 bits each, one after another.
ghost use Rattle.order_closure.specs.Planes.{AreUsed, BeginWithRow, most_words, plane_bit, plane_cell};
ghost use Rattle.order_closure.specs.Tables.{max_table_points};
ghost use Rattle.std.specs.Prelude.{IfOk, if◌then◌else◌, length, slice_index, vec_len, ℕ, ◌*◌, ◌+◌, ◌/◌, ◌<◌, ◌==◌, ◌≡◌, ◌≤◌};

use crate::Cell;
use net_core::{MAX_POINTS, Memory};
use std::alloc::Global;

/// The most points of a table: those of a net.
pub const MAX_TABLE_POINTS: u32 = MAX_POINTS;

/// The most words of a row.
pub const MOST_WORDS: usize = MAX_TABLE_POINTS as usize / 64;

/// A plane of this number of words, in which no bit is set.
///
/// # Errors
///
/// Out of memory.
pub fn clear(alloc: Global, words: usize) -> Result<Vec<u64>, Memory>
    ensures long { IfOk result (λ plane. vec_len plane ≡ words) }
    ensures clear { IfOk result (λ plane. (k : ℕ) → slice_index plane.items k ≡ 0) }
{
    let plane = vec![in alloc; 0; words]?;
    Ok(plane)
}

/// Puts each point with itself.
pub fn reflect(plane: &mut [u64], size: usize, width: usize)
    requires small { size ≤ max_table_points }
    requires words { width ≡ (size + 63) / 64 }
    requires long { length plane.old ≡ size * width }
    requires clear { (k : ℕ) → slice_index plane.old k ≡ 0 }
    ensures { (i j : ℕ) → i < size → j < 64 * width → plane_bit width plane.new i j ≡ (if i == j then 1 else 0) }
{
    for i in 0..size {
        plane[i * width + i / 64] = 1 << (i % 64);
    }
}

/// The words of row `i`.
pub fn row(plane: &[u64], width: usize, i: usize) -> &[u64]
    requires words { width ≤ most_words }
    requires i { i ≤ max_table_points }
    requires within { i * width + width ≤ length plane.now }
    ensures length { length result.now ≡ width }
    ensures words { BeginWithRow width i plane.now result.now }
{
    &plane[i * width..(i + 1) * width]
}

/// The words of a row, and words in which no bit is set. They stand apart from the plane, so that the compiler knows that no
/// write to the plane changes them.
#[derive(Drop)]
pub struct CopiedRow {
    pub words: [u64; MOST_WORDS],
    /// No bit is set in the words before this one.
    pub start: usize,
    /// No bit is set in this word or one after it.
    pub end: usize,
}

/// The words of row `i`, and which of them have bits.
pub fn copied_row(plane: &[u64], width: usize, i: usize) -> CopiedRow
    requires words { width ≤ most_words }
    requires i { i ≤ max_table_points }
    requires within { i * width + width ≤ length plane.now }
    ensures row { BeginWithRow width i plane.now result.words }
    ensures used { AreUsed width result.words result.start result.end }
{
    let mut words = [0; MOST_WORDS];
    words[..width].copy_from_slice(row(plane, width, i));
    let (start, end) = used(&words, width);
    CopiedRow { words, start, end }
}

/// The first word of a row that has bits, and the one after the last.
fn used(words: &[u64], width: usize) -> (usize, usize)
    requires { width ≤ length words.now }
    ensures { AreUsed width words.now result.0 result.1 }
{
    let mut start = 0;
    let mut end = 0;
    for k in 0..width {
        if words[k] != 0 {
            if end == 0 {
                start = k;
            }
            end = k + 1;
        }
    }
    (start, end)
}

/// Whether bit `j` of row `i` is set.
pub fn has_bit(plane: &[u64], width: usize, i: usize, j: usize) -> bool
    requires words { width ≤ most_words }
    requires i { i ≤ max_table_points }
    requires within { i * width + j / 64 < length plane.now }
    ensures { result ≡ (plane_bit width plane.now i j == 1) }
{
    (plane[i * width + j / 64] >> (j % 64)) & 1 == 1
}

/// What two planes say of point `i` and point `j`.
pub fn cell_at(weak: &[u64], strict: &[u64], width: usize, i: usize, j: usize) -> Cell
    requires words { width ≤ most_words }
    requires i { i ≤ max_table_points }
    requires weak { i * width + j / 64 < length weak.now }
    requires strict { i * width + j / 64 < length strict.now }
    ensures { result ≡ plane_cell width weak.now strict.now i j }
{
    match (has_bit(weak, width, i, j), has_bit(strict, width, i, j)) {
        (false, _) => Cell::Free,
        (true, false) => Cell::Weak,
        (true, true) => Cell::Strict,
    }
}
