//! Reading durations.
ghost use Rattle.std.specs.Prelude.{◌≡◌, ◌≢◌, ◌≤◌, ◌∷◌, ℕ, List as ListOf, length as length_of, IsFalse, MatchOption};
ghost use Rattle.std.specs.Char.{is_ascii_digit};
ghost use Rattle.std.specs.List.{prefix_len};
ghost use Rattle.std.specs.Str.Parse.{AllDigits, digits_value};
ghost use Rattle.timex_value.specs.Durations as durations;
ghost use Rattle.timex_value.specs.Durations.{CountThen, ClockText, SpellsLength};
ghost use Rattle.timex_value.specs.Counts.{NoNumber, NoUnknown, NoClock, ReadsCount};
ghost use Rattle.timex_value.specs.declared.length.Count.TheVariants as count;
ghost use Rattle.timex_value.specs.Text.{FindsExactly};

use crate::{Count, Length};

fn digits_len(bytes: &[u8]) -> usize
    ensures within { result ≤ length_of bytes.now }
    ensures len { result ≡ prefix_len is_ascii_digit bytes.now }
{
    bytes.iter().take_while(|b| b.is_ascii_digit()).count()
}

/// The number of at most nine digits.
fn number(digits: &[u8]) -> u32
    requires digits { AllDigits 10 digits.now }
    requires few { length_of digits.now ≤ 9 }
    ensures { result ≡ digits_value 10 digits.now }
{
    let mut n = 0u32;
    for b in digits {
        n = n * 10 + u32::from(*b - b'0');
    }
    n
}

/// What follows the first byte of a text, where it is this one.
fn after(byte: u8, text: &[u8]) -> Option<&[u8]>
    ensures { MatchOption result ((rest : ListOf ℕ) → text.now ≢ byte ∷ rest) (λ rest. text.now ≡ byte ∷ rest.now) }
{
    match text {
        [first, rest @ ..] if *first == byte => Some(rest),
        _ => None,
    }
}

/// One to nine digits with their unit at the start of a text, and the rest.
fn number_at(unit: u8, text: &[u8]) -> Option<(u32, &[u8])>
    requires { IsFalse (is_ascii_digit unit) }
    ensures { MatchOption result (NoNumber unit text.now) (λ r. CountThen unit (count.Number r.0) text.now r.1.now) }
{
    let (digits, rest) = text.split_at(digits_len(text));
    if digits.is_empty() || 9 < digits.len() {
        return None;
    }
    let rest = after(unit, rest)?;
    Some((number(digits), rest))
}

/// What follows `X` and its unit at the start of a text.
fn unknown_at(unit: u8, text: &[u8]) -> Option<&[u8]>
    ensures { MatchOption result (NoUnknown unit text.now) (λ rest. CountThen unit count.Unknown text.now rest.now) }
{
    let text = after(b'X', text)?;
    after(unit, text)
}

/// A count with its unit at the start of a text, and the rest.
fn count_at(unit: u8, text: &[u8]) -> (Count, &[u8])
    requires { IsFalse (is_ascii_digit unit) }
    ensures { ReadsCount unit result.0 text.now result.1.now }
{
    if let Some(rest) = unknown_at(unit, text) {
        return (Count::Unknown, rest);
    }
    if let Some((n, rest)) = number_at(unit, text) {
        return (Count::Number(n), rest);
    }
    (Count::Absent, text)
}

fn is_present(count: Count) -> bool
    ensures { result ≡ durations.is_present count }
{
    !matches!(count, Count::Absent)
}

/// The hours, minutes and seconds of a duration, from the rest of its text after the days.
fn clock(text: &[u8]) -> Option<(Count, Count, Count)>
    ensures { MatchOption result (NoClock text.now) (λ r. ClockText r.0 r.1 r.2 text.now) }
{
    if text.is_empty() {
        return Some((Count::Absent, Count::Absent, Count::Absent));
    }
    let text = after(b'T', text)?;
    let (hours, text) = count_at(b'H', text);
    let (minutes, text) = count_at(b'M', text);
    let (seconds, text) = count_at(b'S', text);
    if !text.is_empty() {
        return None;
    }
    if is_present(hours) || is_present(minutes) || is_present(seconds) {
        return Some((hours, minutes, seconds));
    }
    None
}

fn is_length(length: &Length) -> bool
    ensures { result ≡ durations.is_length length.now }
{
    is_present(length.years)
        || is_present(length.months)
        || is_present(length.weeks)
        || is_present(length.days)
        || is_present(length.hours)
        || is_present(length.minutes)
        || is_present(length.seconds)
}

/// The duration that a text spells.
pub(crate) fn duration(text: &[u8]) -> Option<Length>
    ensures { FindsExactly (λ l. SpellsLength l text.now) result }
{
    let text = after(b'P', text)?;
    let (years, text) = count_at(b'Y', text);
    let (months, text) = count_at(b'M', text);
    let (weeks, text) = count_at(b'W', text);
    let (days, text) = count_at(b'D', text);
    let (hours, minutes, seconds) = clock(text)?;
    let length = Length {
        years,
        months,
        weeks,
        days,
        hours,
        minutes,
        seconds,
    };
    if is_length(&length) {
        Some(length)
    } else {
        None
    }
}
