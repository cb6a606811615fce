//! Writing lines.
ghost use Rattle.line_texts.specs.Numbers.{one_number, relation_line, two_numbers};
ghost use Rattle.std.specs.Prelude.{◌≡◌, ◌++◌, [], ◌∷◌, codes, decimal, OnOk};

use itoa::write_digits;
use net_core::Rel;
use std::alloc::AllocError;

/// Room for the digits of a number, at most ten, and for the byte that ends it.
const NUMBER_ROOM: usize = 11;

/// A keyword that ends in a space, and a relation between two intervals.
pub fn push_relation(
    out: &mut Vec<u8>,
    keyword: &[u8],
    a: u32,
    rel: Rel,
    b: u32,
) -> Result<(), AllocError>
    ensures { OnOk result (out.new.items ≡ out.old.items ++ relation_line keyword.now a rel b) }
{
    out.extend_from_slice(keyword)?;
    push_number(out, a, b' ')?;
    out.extend_from_slice(rel.text())?;
    out.extend_from_slice(b" ")?;
    push_number(out, b, b'\n')
}

/// A keyword that ends in a space, and a number.
pub fn push_one(out: &mut Vec<u8>, keyword: &[u8], n: u32) -> Result<(), AllocError>
    ensures { OnOk result (out.new.items ≡ out.old.items ++ one_number keyword.now n) }
{
    out.extend_from_slice(keyword)?;
    push_number(out, n, b'\n')
}

/// A keyword that ends in a space, and two numbers. It stands in its callers, where the keyword is a constant.
#[inline(always)]
pub fn push_two(out: &mut Vec<u8>, keyword: &[u8], m: u32, n: u32) -> Result<(), AllocError>
    ensures { OnOk result (out.new.items ≡ out.old.items ++ two_numbers keyword.now m n) }
{
    out.extend_from_slice(keyword)?;
    push_pair(out, m, n)
}

/// Two numbers with a space between them, and the LF that ends their line. They are written from the right, to be put last
/// at once: most of the longest texts are such lines.
fn push_pair(out: &mut Vec<u8>, m: u32, n: u32) -> Result<(), AllocError>
    ensures { OnOk result (out.new.items ≡ out.old.items ++ (decimal m ++ codes " " ++ decimal n ++ codes "\n")) }
{
    let mut text = [b'\n'; 2 * NUMBER_ROOM];
    let second = write_digits(u64::from(n), &mut text, 2 * NUMBER_ROOM - 1);
    text[second - 1] = b' ';
    let first = write_digits(u64::from(m), &mut text, second - 1);
    out.extend_from_slice(&text[first..])
}

/// A number, and the byte that ends it.
fn push_number(out: &mut Vec<u8>, n: u32, stop: u8) -> Result<(), AllocError>
    ensures { OnOk result (out.new.items ≡ out.old.items ++ (decimal n ++ stop ∷ [])) }
{
    let mut text = [stop; NUMBER_ROOM];
    let first = write_digits(u64::from(n), &mut text, NUMBER_ROOM - 1);
    out.extend_from_slice(&text[first..])
}
