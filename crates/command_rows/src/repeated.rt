//! A row that stands for several.
use std::alloc::Global;

/// The lines of a row that stands for one with each number from the first to the last.
#[derive(Drop)]
pub struct Repeated {
    pub first: u32,
    pub last: u32,
    pub lines: Vec<String>,
}

impl Repeated {
    /// A row of which no line was read.
    pub fn new(alloc: Global, first: u32, last: u32) -> Repeated {
        Repeated {
            first,
            last,
            lines: Vec::new(alloc),
        }
    }
}
