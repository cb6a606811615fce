//! A script, which is followed line by line.
ghost use Rattle.net_core.specs.Limits.{max_evidence};
ghost use Rattle.std.specs.Prelude.{◌≤◌, IfSome, length};

use crate::nets::Drawn;
use crate::page::Page;
use crate::words::Words;
use crate::{dates, intervals, markup, orders, readers, tags, texts, values, verdicts, walking};
use net_core::MAX_EVIDENCE;
use order_closure::Closed;
use std::alloc::Global;

/// A text that lines of the script may name.
#[derive(Drop)]
struct Text {
    name: String,
    bytes: Vec<u8>,
}

/// What a script has said so far, and what was answered.
#[derive(Drop)]
pub struct Script {
    alloc: Global,
    texts: Vec<Text>,
    net: Drawn,
    table: Option<Closed>,
    pub page: Page,
}

impl Script {
    /// A script of which nothing was read.
    pub fn new(alloc: Global) -> Script {
        Script {
            alloc,
            texts: Vec::new(alloc),
            net: Drawn::new(alloc),
            table: None,
            page: Page::new(alloc),
        }
    }

    /// Follows the next line.
    pub fn take(&mut self, rt: &HostRuntime, line: &str) {
        if line.is_empty() || line.starts_with('#') {
            return;
        }
        if let Some(text) = line.strip_prefix('|') {
            return self.append(text);
        }
        let mut words = Words { rest: line };
        let is_known = match words.word() {
            "text" => self.begin_text(words),
            word => self.say_or_answer(rt, line, word, words),
        };
        if is_known.is_none() {
            self.page.text("not a line of a script\n");
        }
    }

    /// Begins the text of the name that follows.
    fn begin_text(&mut self, mut words: Words<'_>) -> Option<()> {
        let name = words.word();
        match String::from_str(self.alloc, name) {
            Ok(name) => self.push_text(name),
            Err(_) => self.page.out_of_memory(),
        }
        Some(())
    }

    fn push_text(&mut self, name: String) {
        let bytes = Vec::new(self.alloc);
        if self.texts.push(Text { name, bytes }).is_err() {
            self.page.out_of_memory();
        }
    }

    /// Appends a line, with its line feed, to the last text.
    fn append(&mut self, line: &str) {
        let Some(text) = self.texts.last_mut() else {
            return self.page.text("a line of no text\n");
        };
        if text.bytes.extend_from_slice(line.as_bytes()).is_err()
            || text.bytes.push(b'\n').is_err()
        {
            self.page.out_of_memory();
        }
    }

    /// Takes what a line says of the net, or prints the line and its answer.
    fn say_or_answer(
        &mut self,
        rt: &HostRuntime,
        line: &str,
        word: &str,
        words: Words<'_>,
    ) -> Option<()> {
        match word {
            "net" | "exact" | "within" | "link" | "without" => {
                self.net.say(self.alloc, word, words)
            }
            _ => {
                self.page.text(line);
                self.page.text("\n");
                self.answer(rt, word, words)
            }
        }
    }

    /// Prints the answer to a line, by what it is about.
    fn answer(&mut self, rt: &HostRuntime, word: &str, words: Words<'_>) -> Option<()> {
        match word {
            "table" | "copy" | "close" => {
                self.table = Some(self.new_table(word, words)?);
                Some(())
            }
            "weak" | "strict" | "rows" | "cells" | "least" => {
                let table = self.table.as_mut()?;
                orders::answer(&mut self.page, self.alloc, table, word, words)
            }
            "walk" | "walks" | "step" | "reduce" | "possible" => {
                walking::answer(&mut self.page, self.alloc, &self.net, word, words)
            }
            "files" => {
                readers::print_files(&mut self.page, rt, words);
                Some(())
            }
            _ => self.answer_of_words(word, words),
        }
    }

    /// Another table.
    fn new_table(&self, word: &str, mut words: Words<'_>) -> Option<Closed> {
        match word {
            "table" => orders::table_of(self.alloc, words.number()?),
            "copy" => orders::copy_of(self.alloc, self.table.as_ref()?),
            _ => walking::closure_of(self.alloc, &self.net),
        }
    }

    /// Prints the answer to a line that is about its own words, or about a text.
    fn answer_of_words(&mut self, word: &str, words: Words<'_>) -> Option<()> {
        match word {
            "atoms" | "holding" => intervals::answer(&mut self.page, word, words),
            "value" | "years" => values::answer(&mut self.page, word, words),
            "civil" | "drill" | "list" => dates::answer(&mut self.page, self.alloc, word, words),
            _ => self.answer_of_text(word, words),
        }
    }

    /// Prints the answer to a line about the text of the name that follows.
    fn answer_of_text(&mut self, word: &str, mut words: Words<'_>) -> Option<()> {
        let Script {
            alloc,
            texts,
            net,
            page,
            ..
        } = self;
        let alloc = *alloc;
        let text = text_of(texts, words.word())?;
        match word {
            "again" | "one" | "claims" | "bundle" => texts::answer(page, alloc, text, word),
            "join" => texts::print_joined(page, alloc, text, text_of(texts, words.word())?),
            "verify" | "verify-all" => return verdicts::answer(page, alloc, net, text, word),
            _ => return answer_of_markup(page, alloc, text, word, words),
        }
        Some(())
    }
}

/// Prints the answer to a line about the markup of a text.
fn answer_of_markup(
    page: &mut Page,
    alloc: Global,
    text: &[u8],
    word: &str,
    words: Words<'_>,
) -> Option<()>
    requires { length text.now ≤ max_evidence }
{
    match word {
        "units" => markup::print_units(page, alloc, text),
        "tree" => markup::print_tree(page, alloc, text),
        "tag" => return markup::print_tag(page, alloc, text, words),
        "source" => return markup::print_source(page, alloc, text),
        "canon" => return markup::print_canon(page, alloc, text),
        "typed" => return tags::print_typed(page, alloc, text),
        "intervals" => return tags::print_intervals(page, alloc, text, words),
        "pull" => return readers::print_pulls(page, alloc, text),
        "nest" => return readers::print_nesting(page, alloc, text),
        _ => return None,
    }
    Some(())
}

/// The last text of that name.
fn text_of<'t>(texts: &'t [Text], name: &str) -> Option<&'t [u8]>
    ensures { IfSome result (λ text. length text.now ≤ max_evidence) }
{
    for text in texts.iter().rev() {
        if text.name.as_str() == name {
            let bytes = text.bytes.as_slice();
            return if bytes.len() <= MAX_EVIDENCE as usize {
                Some(bytes)
            } else {
                None
            };
        }
    }
    None
}
