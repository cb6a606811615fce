//! The rows of a table, joined with one of them.
ghost use Rattle.order_closure.specs.Cells.{joined, order, strength, stronger};
ghost use Rattle.order_closure.specs.Planes.{ArePlanes, AreUsed, IsRowJoined, MarksReached, most_words, plane_bit, plane_cell};
ghost use Rattle.order_closure.specs.Tables.{AreClosed, max_table_points, way};
ghost use Rattle.std.specs.Prelude.{IsTrue, bit_or, length, slice_index, ℕ, ◌*◌, ◌+◌, ◌/◌, ◌<◌, ◌↔◌, ◌≡◌, ◌≢◌, ◌≤◌};

use crate::Cell;
use crate::planes::{CopiedRow, cell_at, copied_row, has_bit};
use net_core::Atom;
use std::ops::Range;

/// Raises each cell to the stronger of what it was and of the way over an atom. A row is joined only where its point is
/// before `atom.from`, and the way to `atom.to` says more than its cell does: else nothing follows that does not stand
/// there. Row `atom.to` itself stays, since the atom is not denied.
pub fn raise(
    weak: &mut [u64],
    strict: &mut [u64],
    reached: &[u64],
    size: usize,
    width: usize,
    atom: Atom,
)
    requires planes { ArePlanes size width weak.old strict.old }
    requires closed { AreClosed size (plane_cell width weak.old strict.old) }
    requires words { width ≤ length reached.now }
    requires reached { MarksReached size width (plane_cell width weak.old strict.old) reached.now }
    requires from { atom.from < size }
    requires to { atom.to < size }
    // The atom is not denied.
    requires fits { strength (joined (plane_cell width weak.old strict.old atom.to atom.from) (order atom.strict)) ≤ 1 }
    ensures planes { ArePlanes size width weak.new strict.new }
    ensures raised { (i j : ℕ) → i < size → j < size → plane_cell width weak.new strict.new i j
        ≡ stronger (plane_cell width weak.old strict.old i j) (way (plane_cell width weak.old strict.old) atom i j) }
{
    let (from, to) = (atom.from as usize, atom.to as usize);
    let order = Cell::order(atom.strict);
    let over_weak = copied_row(weak, width, to);
    let over_strict = copied_row(strict, width, to);
    let rows = rows_before(reached, size, width, from);
    for i in rows.start..rows.end {
        if is_raised(weak, strict, width, i, atom) {
            let way = cell_at(weak, strict, width, i, from).joined(order);
            raise_row(weak, strict, width, i, &over_weak, &over_strict, way);
        }
    }
}

/// The rows among which are those of all points before or with point `from`: its own alone where no other point reaches it.
fn rows_before(reached: &[u64], size: usize, width: usize, from: usize) -> Range<usize>
    requires words { width ≤ most_words }
    requires within { from / 64 < length reached.now }
    requires from { from < size }
    ensures from { (result.start ≤ from) × (from < result.end) }
    ensures end { result.end ≤ size }
    ensures before { 0 < result.start → plane_bit width reached.now 0 from ≡ 0 }
    ensures after { result.end < size → plane_bit width reached.now 0 from ≡ 0 }
{
    if has_bit(reached, width, 0, from) {
        0..size
    } else {
        from..from + 1
    }
}

/// Whether the way from point `i` over an atom to `atom.to` says more than their cell does. Of a point that is not before
/// `atom.from` one bit is read.
fn is_raised(weak: &[u64], strict: &[u64], width: usize, i: usize, atom: Atom) -> bool
    requires words { width ≤ most_words }
    requires i { i ≤ max_table_points }
    requires weak_from { i * width + atom.from / 64 < length weak.now }
    requires weak_to { i * width + atom.to / 64 < length weak.now }
    requires strict_from { i * width + atom.from / 64 < length strict.now }
    requires strict_to { i * width + atom.to / 64 < length strict.now }
    requires both_from { plane_bit width strict.now i atom.from ≤ plane_bit width weak.now i atom.from }
    requires both_to { plane_bit width strict.now i atom.to ≤ plane_bit width weak.now i atom.to }
    ensures { IsTrue result ↔ (strength (plane_cell width weak.now strict.now i atom.to)
        < strength (joined (plane_cell width weak.now strict.now i atom.from) (order atom.strict))) }
{
    let (from, to) = (atom.from as usize, atom.to as usize);
    if !has_bit(weak, width, i, from) {
        return false;
    }
    if atom.strict || has_bit(strict, width, i, from) {
        !has_bit(strict, width, i, to)
    } else {
        !has_bit(weak, width, i, to)
    }
}

/// Raises the cells of row `i` by the way to a point, and from there by its row: where the way is strict, all bits of that
/// row make strict ones. It stands outside of the loop over the rows, so that what their test needs stays in registers.
#[inline(never)]
fn raise_row(
    weak: &mut [u64],
    strict: &mut [u64],
    width: usize,
    i: usize,
    over_weak: &CopiedRow,
    over_strict: &CopiedRow,
    way: Cell,
)
    requires words { width ≤ most_words }
    requires i { i ≤ max_table_points }
    requires weak { i * width + width ≤ length weak.old }
    requires strict { i * width + width ≤ length strict.old }
    requires over_weak { AreUsed width over_weak.now.words over_weak.now.start over_weak.now.end }
    requires over_strict { AreUsed width over_strict.now.words over_strict.now.start over_strict.now.end }
    ensures weak { IsRowJoined width i over_weak.now.words weak.old weak.new }
    ensures by_strict { way ≡ Cell.Strict → IsRowJoined width i over_weak.now.words strict.old strict.new }
    ensures by_weak { way ≢ Cell.Strict → IsRowJoined width i over_strict.now.words strict.old strict.new }
{
    join_row(weak, width, i, over_weak);
    if way == Cell::Strict {
        join_row(strict, width, i, over_weak);
    } else {
        join_row(strict, width, i, over_strict);
    }
}

/// Joins row `i` of a plane with the words of another row. Only those that have bits are joined: of most rows they are few.
pub fn join_row(plane: &mut [u64], width: usize, i: usize, over: &CopiedRow)
    requires words { width ≤ most_words }
    requires i { i ≤ max_table_points }
    requires within { i * width + width ≤ length plane.old }
    requires over { AreUsed width over.now.words over.now.start over.now.end }
    ensures { IsRowJoined width i over.now.words plane.old plane.new }
{
    let first = i * width;
    let words = &over.words[over.start..over.end];
    join(&mut plane[first + over.start..first + over.end], words);
}

/// Joins words with the first of others. The loop has no branch, so that the compiler can take many words at once.
fn join(row: &mut [u64], over: &[u64])
    requires { length row.old ≤ length over.now }
    ensures { (k : ℕ) → k < length row.old → slice_index row.new k ≡ bit_or (slice_index row.old k) (slice_index over.now k) }
{
    for (k, word) in row.iter_mut().enumerate() {
        *word |= over[k];
    }
}
