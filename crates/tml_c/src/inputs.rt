//! The files of a call, which stay where the caller has them.
ghost use Rattle.std.specs.Prelude.{◌≡◌, Some};
ghost use Rattle.tml_c.specs.Given.{two_files};

use tml_io::{Failed, Inputs};

/// Two files in memory, by the names `first` and `second`. No read fails, and no start but that of another name.
#[derive(Drop)]
pub struct TwoFiles<'c> {
    first: &'c [u8],
    second: &'c [u8],
    // What is left of the one that was started.
    left: &'c [u8],
    faults: u64,
    given: u64,
}

impl<'c> TwoFiles<'c> {
    /// Files of which none is started. It copies nothing and takes no memory.
    pub fn new(first: &'c [u8], second: &'c [u8]) -> TwoFiles<'c>
        ensures files { (⟦<TwoFiles<'c> as Inputs>⟧.known result).files ≡ Some (two_files first.now second.now) }
        ensures faults { (⟦<TwoFiles<'c> as Inputs>⟧.known result).faults ≡ 0 }
    {
        TwoFiles {
            first,
            second,
            left: &[],
            faults: 0,
            given: 0,
        }
    }
}

impl Inputs for TwoFiles<'_> {
    ghost use Rattle.std.specs.Prelude.{None, Some, true, refl};
    ghost use Rattle.tml_c.specs.Given.{two_files};

    ghost known = { λ s. record {
      files = Some (two_files s.first.now s.second.now);
      left = Some s.left.now;
      started = None;
      given = s.given;
      calls = 0;
      faults = s.faults;
      sound = true;
    } };

    ghost files_known = { λ s h. refl };

    ghost left_known = { λ s h. refl };

    fn start(&mut self, name: &str) -> Result<(), Failed> {
        self.left = match name {
            "first" => self.first,
            "second" => self.second,
            _ => {
                self.left = &[];
                self.faults = self.faults.saturating_add(1);
                return Err(Failed);
            }
        };
        Ok(())
    }

    fn read(&mut self, into: &mut [u8]) -> Result<usize, Failed> {
        let count = into.len().min(self.left.len());
        let (given, left) = self.left.split_at(count);
        into[..count].copy_from_slice(given);
        self.left = left;
        self.given = self.given.saturating_add(count as u64);
        Ok(count)
    }
}
