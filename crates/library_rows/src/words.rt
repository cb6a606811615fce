//! The words of a line.
use net_core::{Rel, rel_of};

/// What is left of a line, with a space between each two words.
#[derive(Clone, Copy)]
pub struct Words<'t> {
    pub rest: &'t str,
}

impl<'t> Words<'t> {
    /// The next word, which is empty at the end of the line.
    pub fn word(&mut self) -> &'t str {
        match self.rest.split_once(' ') {
            Some((word, rest)) => {
                self.rest = rest;
                word
            }
            None => {
                let word = self.rest;
                self.rest = "";
                word
            }
        }
    }

    /// The next word, if it is a number.
    pub fn number(&mut self) -> Option<u32> {
        self.word().parse().ok()
    }

    /// The next two words, if both are numbers.
    pub fn pair(&mut self) -> Option<(u32, u32)> {
        let first = self.number()?;
        let second = self.number()?;
        Some((first, second))
    }

    /// The next word, if it is the number of a second.
    pub fn second(&mut self) -> Option<i64> {
        self.word().parse().ok()
    }

    /// The next word, if it is a relation.
    pub fn relation(&mut self) -> Option<Rel> {
        rel_of(self.word().as_bytes())
    }
}
