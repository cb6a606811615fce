//! Which way a table orders the points of two intervals, by the bits of its rows.
ghost use Rattle.derive_rel.specs.Pairs.{says_some};
ghost use Rattle.order_closure.specs.Tables.{cell_at};
ghost use Rattle.std.specs.Int.{bit_at};
ghost use Rattle.std.specs.Prelude.{◌*◌, ◌+◌, ◌<◌, ◌==◌, ◌≡◌, ◌||◌};

use order_closure::{Closed, MAX_TABLE_POINTS};

/// Whether a table gives some order of a point of the first interval and one of the second, that way round.
pub fn gives_some(closed: &Closed, a: u32, b: u32) -> bool
    requires a { 2 * a + 1 < closed.now.points }
    requires b { 2 * b + 1 < closed.now.points }
    ensures { result ≡ says_some (cell_at closed.now) a b }
{
    prove!(closed.points() <= MAX_TABLE_POINTS);
    let start = closed.weak_row(2 * a);
    let finish = closed.weak_row(2 * a + 1);
    // both points of an interval have their bits in one word
    let word = start[2 * b as usize / 64] | finish[2 * b as usize / 64];
    has_one(word, 2 * b % 64)
}

/// Whether bit `j` of a word or the next one is set.
fn has_one(word: u64, j: u32) -> bool
    requires { j + 1 < 64 }
    ensures { result ≡ (bit_at word j == 1 || bit_at word (j + 1) == 1) }
{
    has_bit(word, j) || has_bit(word, j + 1)
}

/// Whether bit `j` of a word is set.
fn has_bit(word: u64, j: u32) -> bool
    requires { j < 64 }
    ensures { result ≡ (bit_at word j == 1) }
{
    (word >> j) & 1 == 1
}
