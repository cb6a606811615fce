//! A page, which is written piece by piece.
use std::alloc::{AllocError, Global};

/// A text that is written piece by piece. Whoever writes need not check after each piece whether there was memory for it:
/// a page that lacks one is never given out.
#[derive(Drop)]
pub struct Page {
    text: Vec<u8>,
    is_whole: bool,
}

impl Page {
    /// An empty page.
    pub fn new(alloc: Global) -> Page {
        Page {
            text: Vec::new(alloc),
            is_whole: true,
        }
    }

    /// Appends bytes.
    pub fn bytes(&mut self, bytes: &[u8]) {
        if self.text.extend_from_slice(bytes).is_err() {
            self.is_whole = false;
        }
    }

    /// Appends a text.
    pub fn text(&mut self, text: &str) {
        self.bytes(text.as_bytes());
    }

    /// Appends the digits of a number.
    pub fn number(&mut self, number: u64) {
        match number.to_string(*self.text.allocator()) {
            Ok(digits) => self.text(digits.as_str()),
            Err(AllocError) => self.is_whole = false,
        }
    }

    /// Appends a word, a space before it and the digits of a number after it.
    pub fn named(&mut self, word: &str, number: u32) {
        self.text(word);
        self.text(" ");
        self.number(u64::from(number));
    }

    /// Something had to be left out: out of memory.
    pub fn out_of_memory(&mut self) {
        self.is_whole = false;
    }

    /// The whole page.
    ///
    /// # Errors
    ///
    /// Out of memory, also earlier.
    pub fn whole(&self) -> Result<&[u8], AllocError> {
        if self.is_whole {
            Ok(self.text.as_slice())
        } else {
            Err(AllocError)
        }
    }
}
