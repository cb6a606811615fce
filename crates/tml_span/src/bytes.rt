//! Kinds of bytes, and how long the run of one kind is at the start.
ghost use Rattle.std.specs.Prelude.{ℕ, ◌≡◌, ◌≢◌, ◌<◌, ◌≤◌, length, slice_index};
ghost use Rattle.memchr.specs.Find.{IsFirstByte, is_byte};
ghost use Rattle.std.specs.List.{prefix_len};
ghost use Rattle.tml_span.specs.Bytes as kinds;

/// Space, tab, carriage return or line feed.
pub fn is_white(b: u8) -> bool
    ensures { result ≡ kinds.is_white b }
{
    b == b' ' || b == b'\t' || b == b'\r' || b == b'\n'
}

/// A byte that a name may begin with.
pub fn is_name_start(b: u8) -> bool
    ensures { result ≡ kinds.is_name_start b }
{
    matches!(b, b'A'..=b'Z' | b'a'..=b'z' | b'_' | b':') || b >= 128
}

/// Which bytes a name may go on with. A table takes a fifth off the time of reading names.
const NAME_BYTES: [bool; 256] = [
    false, false, false, false, false, false, false, false, false, false, false, false, false,
    false, false, false, false, false, false, false, false, false, false, false, false, false,
    false, false, false, false, false, false, false, false, false, false, false, false, false,
    false, false, false, false, false, false, true, true, false, true, true, true, true, true,
    true, true, true, true, true, true, false, false, false, false, false, false, true, true, true,
    true, true, true, true, true, true, true, true, true, true, true, true, true, true, true, true,
    true, true, true, true, true, true, true, false, false, false, false, true, false, true, true,
    true, true, true, true, true, true, true, true, true, true, true, true, true, true, true, true,
    true, true, true, true, true, true, true, true, false, false, false, false, false, true, true,
    true, true, true, true, true, true, true, true, true, true, true, true, true, true, true, true,
    true, true, true, true, true, true, true, true, true, true, true, true, true, true, true, true,
    true, true, true, true, true, true, true, true, true, true, true, true, true, true, true, true,
    true, true, true, true, true, true, true, true, true, true, true, true, true, true, true, true,
    true, true, true, true, true, true, true, true, true, true, true, true, true, true, true, true,
    true, true, true, true, true, true, true, true, true, true, true, true, true, true, true, true,
    true, true, true, true, true, true, true, true, true, true, true, true, true, true, true, true,
    true, true, true, true, true, true, true, true, true, true, true, true, true, true,
];

/// A byte that a name may go on with.
fn is_name_byte(b: u8) -> bool
    ensures { result ≡ kinds.is_name_byte b }
{
    NAME_BYTES[usize::from(b)]
}

pub fn white_len(bytes: &[u8]) -> usize
    ensures within { result ≤ length bytes.now }
    ensures len { result ≡ prefix_len kinds.is_white bytes.now }
{
    bytes.iter().take_while(|b| is_white(**b)).count()
}

/// It stands in its callers: most names are short, and a call would take as long as the name.
#[inline(always)]
pub fn name_len(bytes: &[u8]) -> usize
    ensures within { result ≤ length bytes.now }
    ensures len { result ≡ prefix_len kinds.is_name_byte bytes.now }
{
    bytes.iter().take_while(|b| is_name_byte(**b)).count()
}

/// How many bytes are looked at one by one before a call of `memchr`, which takes longer than they do.
const NEAR: usize = 4;

/// The index of the first such byte among a few bytes.
#[inline(always)]
fn position_of(b: u8, bytes: &[u8]) -> Option<usize>
    ensures { IsFirstByte (is_byte b) bytes.now result }
{
    bytes.iter().position(|c| *c == b)
}

/// The index of the first such byte, which often is near.
#[inline(always)]
pub fn index_of(b: u8, bytes: &[u8]) -> Option<usize>
    ensures { IsFirstByte (is_byte b) bytes.now result }
{
    let few = bytes.len().min(NEAR);
    let (near, far) = bytes.split_at(few);
    if let Some(index) = position_of(b, near) {
        return Some(index);
    }
    let ahead = memchr::memchr(b, far)?;
    Some(few + ahead)
}

/// A text is mostly long, so it is searched for the `<` that ends it.
pub fn text_len(bytes: &[u8]) -> usize
    ensures within { result ≤ length bytes.now }
    ensures len { result ≡ prefix_len kinds.is_text_byte bytes.now }
{
    match memchr::memchr(b'<', bytes) {
        Some(len) => len,
        None => bytes.len(),
    }
}

/// Up to this number of bytes are looked at one by one, which takes less time than a call of `memchr`.
const FEW: usize = 32;

/// The index of the first `&`. Most values are short and have none.
pub fn ampersand_at(bytes: &[u8]) -> Option<usize>
    ensures { IsFirstByte (is_byte 38) bytes.now result }
{
    if bytes.len() <= FEW {
        position_of(b'&', bytes)
    } else {
        memchr::memchr(b'&', bytes)
    }
}

/// How many bytes stand before the first `&`.
pub fn clear_len(bytes: &[u8]) -> usize
    ensures within { result ≤ length bytes.now }
    ensures clear { (k : ℕ) → k < result → slice_index bytes.now k ≢ 38 }
{
    match memchr::memchr(b'&', bytes) {
        Some(len) => len,
        None => bytes.len(),
    }
}

/// How long a value is that is closed by that quote.
pub fn value_len(quote: u8, bytes: &[u8]) -> usize
    ensures within { result ≤ length bytes.now }
    ensures len { result ≡ prefix_len (kinds.is_value_byte quote) bytes.now }
{
    bytes
        .iter()
        .take_while(|b| **b != quote && **b != b'<')
        .count()
}

/// How long the body of a doctype is.
pub fn doctype_len(bytes: &[u8]) -> usize
    ensures within { result ≤ length bytes.now }
    ensures len { result ≡ prefix_len kinds.is_doctype_byte bytes.now }
{
    bytes
        .iter()
        .take_while(|b| **b != b'[' && **b != b'<' && **b != b'>')
        .count()
}

pub fn digits_len(bytes: &[u8]) -> usize
    ensures within { result ≤ length bytes.now }
    ensures len { result ≡ prefix_len kinds.is_digit bytes.now }
{
    bytes.iter().take_while(|b| b.is_ascii_digit()).count()
}

pub fn hex_digits_len(bytes: &[u8]) -> usize
    ensures within { result ≤ length bytes.now }
    ensures len { result ≡ prefix_len kinds.is_hex_digit bytes.now }
{
    bytes.iter().take_while(|b| b.is_ascii_hexdigit()).count()
}
