//! A call of `tml`, as a table has it.
use crate::text::unescaped;
use anyhow::{Result, bail};
use std::alloc::Global;

/// The words of `tml`, with where its standard input comes from and its text goes to.
#[derive(Drop)]
pub struct Command {
    /// The number of its line.
    pub number: u64,
    /// The line after `$ tml`.
    pub line: String,
    pub words: Vec<String>,
    /// What standard input holds, as by `<<<` in a shell.
    pub input: Option<Vec<u8>>,
    /// The name of the file that the text goes to, as by `>` in a shell.
    pub kept_as: Option<String>,
}

impl Command {
    /// The command of a line, with a space before each word.
    pub fn new(alloc: Global, number: u64, line: &str) -> Result<Command> {
        let (rest, input) = match line.split_once(" <<< ") {
            Some((rest, text)) => (rest, Some(unescaped(alloc, text)?)),
            None => (line, None),
        };
        let (words, kept_as) = match rest.split_once(" > ") {
            Some((words, name)) => (words, Some(String::from_str(alloc, name)?)),
            None => (rest, None),
        };
        Ok(Command {
            number,
            line: String::from_str(alloc, line)?,
            words: words_of(alloc, words)?,
            input,
            kept_as,
        })
    }
}

fn words_of(alloc: Global, line: &str) -> Result<Vec<String>> {
    let mut parts = line.split(' ');
    if parts.next() != Some("") {
        bail!("no space before the words");
    }
    let mut words = Vec::new(alloc);
    for part in parts {
        words.push(word_of(alloc, part)?)?;
    }
    Ok(words)
}

/// A word, with the escapes of a text. `''` is the empty one.
fn word_of(alloc: Global, part: &str) -> Result<String> {
    if part.is_empty() {
        bail!("two spaces between words");
    }
    let text = if part == "''" { "" } else { part };
    match String::from_utf8(unescaped(alloc, text)?) {
        Ok(word) => Ok(word),
        Err(_) => bail!("a word that is not UTF-8"),
    }
}
