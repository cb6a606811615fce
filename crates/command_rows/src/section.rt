//! A section of a table, and how its rows went.
ghost use Rattle.std.specs.Prelude.{◌⊎◌, ◌<◌, ◌≤◌, IsTrue};

use anyhow::Result;
use std::alloc::{AllocError, Global};

/// A section, with the number of its rows by how they went.
#[derive(Drop)]
pub struct Section {
    name: String,
    right: u64,
    wrong: u64,
}

impl Section {
    /// A section with no rows.
    pub fn new(alloc: Global, name: &str) -> Result<Section, AllocError> {
        Ok(Section {
            name: String::from_str(alloc, name)?,
            right: 0,
            wrong: 0,
        })
    }

    /// Counts a row. One that is wrong is never forgotten.
    pub fn count(&mut self, is_right: bool)
        ensures counted { IsTrue is_right ⊎ (0 < self.new.wrong) }
        ensures stays { self.old.wrong ≤ self.new.wrong }
    {
        if is_right {
            self.right = self.right.saturating_add(1);
        } else {
            self.wrong = self.wrong.saturating_add(1);
        }
    }

    /// Prints the numbers.
    pub fn print(&self, rt: &impl Print) -> Result<()> {
        let Section { name, right, wrong } = self;
        print!(rt; "{name}: {right} right")?;
        if *wrong != 0 {
            print!(rt; ", {wrong} WRONG")?;
        }
        println!(rt)?;
        Ok(())
    }
}
