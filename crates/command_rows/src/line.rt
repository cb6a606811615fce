//! The lines of a table of cases.

/// A line of text, and how often it stands there.
#[derive(Clone, Copy)]
pub struct Piece<'t> {
    pub times: u32,
    pub text: &'t str,
}

/// What can be said of the inputs and the sink of a row, with a number.
#[derive(Clone, Copy)]
pub enum Setting {
    /// The most bytes that a read gives.
    ReadsOf,
    /// A call that fails, of those that start a file or read.
    FailRead,
    /// The most bytes that a write takes.
    WritesOf,
    /// A write that fails.
    FailWrite,
    /// The bytes that there is room for.
    Room,
}

/// What a line of a table says.
#[derive(Clone, Copy)]
pub enum Line<'t> {
    /// Nothing: it is empty, or a comment.
    Blank,
    /// A section begins.
    Section(&'t str),
    /// A file begins, perhaps with a line of its text.
    File {
        name: &'t str,
        first: Option<Piece<'t>>,
    },
    /// A line of the text of a file or an answer.
    Text(Piece<'t>),
    /// The text of the file of that name, or this number of its first bytes.
    TextOf {
        name: &'t str,
        most: Option<u32>,
    },
    /// The next row stands for one with each number from the first to the last.
    Each {
        first: u32,
        last: u32,
    },
    /// The next row has such inputs, or such a sink.
    Setting {
        setting: Setting,
        number: u32,
    },
    /// A command, with these words.
    Command(&'t str),
    /// A row ends with this status.
    Status(u8),
}

/// What a line says, if it is one of a table. None ends with a space, which cannot be seen.
pub fn line_of(line: &str) -> Option<Line<'_>> {
    if line.ends_with(' ') {
        return None;
    }
    if line.is_empty() || line.starts_with('#') {
        return Some(Line::Blank);
    }
    if let Some(name) = line.strip_prefix("== ") {
        return Some(Line::Section(name));
    }
    if let Some(rest) = line.strip_prefix('=') {
        return text_of(rest);
    }
    if let Some(numbers) = line.strip_prefix("each ") {
        return each(numbers);
    }
    if let Some(words) = line.strip_prefix("$ tml") {
        return Some(Line::Command(words));
    }
    if let Some(rest) = line.strip_prefix('[') {
        return status(rest);
    }
    match line.split_once('|') {
        Some((head, text)) => before_text(head, text),
        None => named(line),
    }
}

/// What follows the `=` of a text of a file: perhaps a number of bytes, and the name.
fn text_of(rest: &str) -> Option<Line<'_>> {
    let (number, name) = rest.split_once(' ')?;
    let most = match number {
        "" => None,
        _ => Some(number.parse().ok()?),
    };
    Some(Line::TextOf { name, most })
}

/// What follows the `[` of a status.
fn status(rest: &str) -> Option<Line<'_>> {
    let status = rest.strip_suffix(']')?.parse().ok()?;
    Some(Line::Status(status))
}

/// The numbers of a row that stands for several, as `0..58`.
fn each(numbers: &str) -> Option<Line<'_>> {
    let (first, last) = numbers.split_once("..")?;
    Some(Line::Each {
        first: first.parse().ok()?,
        last: last.parse().ok()?,
    })
}

/// A line with a text: how often, or of which file it is.
fn before_text<'t>(head: &'t str, text: &'t str) -> Option<Line<'t>> {
    if let Some(name) = head.strip_prefix("file ") {
        let first = Some(Piece { times: 1, text });
        return Some(Line::File { name, first });
    }
    let times = match head.strip_suffix('*') {
        Some(times) => times.parse().ok()?,
        None if head.is_empty() => 1,
        None => return None,
    };
    Some(Line::Text(Piece { times, text }))
}

/// A line of a word, and a name or a number.
fn named(line: &str) -> Option<Line<'_>> {
    let (word, rest) = line.split_once(' ')?;
    let setting = match word {
        "file" => {
            return Some(Line::File {
                name: rest,
                first: None,
            });
        }
        "reads-of" => Setting::ReadsOf,
        "fail-read" => Setting::FailRead,
        "writes-of" => Setting::WritesOf,
        "fail-write" => Setting::FailWrite,
        "room" => Setting::Room,
        _ => return None,
    };
    let number = rest.parse().ok()?;
    Some(Line::Setting { setting, number })
}
