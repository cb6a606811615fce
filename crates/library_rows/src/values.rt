//! What values of times say: durations with their counts, and calendar values with their fields.
use crate::page::Page;
use crate::shapes::print_shape;
use crate::words::Words;
use timex_value::{BadDate, Count, Length, Value, Year, read_value};

/// Prints the answer to a line about a value.
pub fn answer(page: &mut Page, word: &str, mut words: Words<'_>) -> Option<()> {
    match word {
        "value" => {
            print_value(page, words.rest);
            Some(())
        }
        _ => print_years(page, &mut words),
    }
}

/// Prints what a text says as the value of a time. A bar at its end is not part of it.
fn print_value(page: &mut Page, text: &str) {
    let text = match text.strip_suffix('|') {
        Some(before) => before,
        None => text,
    };
    match read_value(text.as_bytes()) {
        Ok(value) => print_said(page, value),
        Err(BadDate) => page.text("bad date"),
    }
    page.text("\n");
}

/// Prints what a value says, within a line.
pub fn print_said(page: &mut Page, value: Value) {
    match value {
        Value::Duration(length) => print_length(page, &length),
        Value::Calendar(value) => {
            print_year(page, value.year());
            print_shape(page, value.shape());
        }
        Value::Other => page.text("other"),
    }
}

/// Prints the counts of a duration, from years to seconds.
fn print_length(page: &mut Page, length: &Length) {
    page.text("duration");
    print_count(page, length.years);
    print_count(page, length.months);
    print_count(page, length.weeks);
    print_count(page, length.days);
    print_count(page, length.hours);
    print_count(page, length.minutes);
    print_count(page, length.seconds);
}

fn print_count(page: &mut Page, count: Count) {
    match count {
        Count::Absent => page.text(" -"),
        Count::Unknown => page.text(" X"),
        Count::Number(number) => page.named("", number),
    }
}

fn print_year(page: &mut Page, year: Year) {
    match year {
        Year::Known(year) => page.named("year", u32::from(year)),
        Year::Decade(decade) => page.named("decade", u32::from(decade)),
        Year::Century(century) => page.named("century", u32::from(century)),
        Year::Unknown => page.text("year X"),
    }
}

/// Prints the first and the last of the years that words like `decade 199`, `century 19` or `unknown` stand for.
fn print_years(page: &mut Page, words: &mut Words<'_>) -> Option<()> {
    match words.word() {
        "decade" => print_decade(page, words.number()?),
        "century" => print_century(page, words.number()?),
        _ => {
            print_range(page, Year::Unknown.range());
            Some(())
        }
    }
}

fn print_decade(page: &mut Page, decade: u32) -> Option<()> {
    if decade > 999 {
        return None;
    }
    print_range(page, Year::Decade(decade as u16).range());
    Some(())
}

fn print_century(page: &mut Page, century: u32) -> Option<()> {
    if century > 99 {
        return None;
    }
    print_range(page, Year::Century(century as u16).range());
    Some(())
}

fn print_range(page: &mut Page, (first, last): (u16, u16)) {
    page.named("from", u32::from(first));
    page.named(" to", u32::from(last));
    page.text("\n");
}
