//! The seconds of one line.
ghost use Rattle.seconds_format.specs.Words as words;
ghost use Rattle.std.specs.Prelude.{◌≡◌, option_map};

use line_texts::{after, long_to};

/// The second up to the byte that ends it, and what follows that byte: in decimal, without leading zeros, and with the
/// sign - exactly where it is before second 0. So `-0` is none.
#[tactic(auto, unfolding(crate::specs::Words::second_to))]
fn second_to(stop: u8, bytes: &[u8]) -> Option<(i64, &[u8])>
    ensures { option_map (λ r. (r.0, r.1.now)) result ≡ words.second_to stop bytes.now }
{
    match bytes {
        [] => None,
        [b'-', rest @ ..] => {
            let (n, rest) = long_to(stop, rest)?;
            Some((second_before(n)?, rest))
        }
        _ => {
            let (n, rest) = long_to(stop, bytes)?;
            Some((second_of(n)?, rest))
        }
    }
}

/// A number as a second.
#[tactic(auto, unfolding(crate::specs::Words::second_of))]
fn second_of(n: u64) -> Option<i64>
    ensures { result ≡ words.second_of n }
{
    i64::try_from(n).ok()
}

/// The second that is so far before second 0. The first one that 64 bits hold is further from it than the last one.
#[tactic(auto, unfolding(crate::specs::Words::second_before))]
fn second_before(n: u64) -> Option<i64>
    ensures { result ≡ words.second_before n }
{
    let less = i64::try_from(n.checked_sub(1)?).ok()?;
    Some(-1 - less)
}

/// The seconds of the line of an interval. None comes exactly where it is that of none.
#[tactic(auto, unfolding(crate::specs::Words::pair_of))]
pub fn pair_of(line: &[u8]) -> Option<(i64, i64)>
    ensures { result ≡ words.pair_of line.now }
{
    let rest = after(b"at ", line)?;
    let (start, rest) = second_to(b' ', rest)?;
    let (finish, rest) = second_to(b'\n', rest)?;
    if rest.is_empty() {
        Some((start, finish))
    } else {
        None
    }
}
