//! The words of a call.
ghost use Rattle.std.specs.Prelude.{◌≡◌, ◌++◌, [], ◌∷◌, true, IfErr, IfOk, MatchOption};
ghost use Rattle.tml_c.specs.Words as spec;
ghost use Rattle.tml_c.specs.Words.{AreWords, HaveNoWords, HaveWords, between_zeros};
ghost use Rattle.runs.specs.Words.{texts_of};

use std::alloc::{AllocError, Global};
use std::str;

/// The words in some bytes, each ended by a zero byte, or none where the bytes have none.
///
/// # Errors
///
/// Out of memory for the words that there are.
pub fn words_in(alloc: Global, bytes: &[u8]) -> Result<Option<Vec<String>>, AllocError>
    ensures ok { IfOk result (λ found. MatchOption found (HaveNoWords bytes.now) (λ words. AreWords bytes.now (texts_of words.items))) }
    ensures err { IfErr result (λ e. HaveWords bytes.now) }
{
    let Ok(text) = str::from_utf8(bytes) else {
        return Ok(None);
    };
    if is_ended(bytes) {
        Ok(Some(ended_words(alloc, text)?))
    } else {
        Ok(None)
    }
}

/// Whether the last byte is zero, or there is none.
fn is_ended(bytes: &[u8]) -> bool
    ensures { result ≡ spec.is_ended bytes.now }
{
    bytes.is_empty() || bytes[bytes.len() - 1] == 0
}

/// The words of a text whose last one is ended too.
fn ended_words(alloc: Global, text: &str) -> Result<Vec<String>, AllocError>
    requires { spec.is_ended text.now ≡ true }
    ensures { IfOk result (λ found. between_zeros text.now ≡ texts_of found.items ++ [] ∷ []) }
{
    let mut words = Vec::new(alloc);
    let mut rest = text;
    while let Some((word, after)) = rest.split_once('\0') {
        words.push(String::from_str(alloc, word)?)?;
        rest = after;
    }
    Ok(words)
}
