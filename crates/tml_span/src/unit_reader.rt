//! The units of a source that has no fault, one by one.
ghost use Rattle.std.specs.Prelude.{◌≡◌, ◌<◌, ◌^◌, length, IfOk, IfErr};
ghost use Rattle.tml_span.specs.Faults.{HasPlainFault};
ghost use Rattle.tml_span.specs.Reader.{BeginsReading};

use crate::fault::PlainCut;
use crate::{Cutter, Memory, Unit};
use std::alloc::Global;
use std::marker::Model;

/// Gives the units of a source one by one, from the first on. The source has no fault. Contracts see the source and the
/// place: the units that are given are those that end at or before it.
#[derive(Drop)]
pub struct UnitReader<'s> {
    cutter: Cutter<'s>,
}

impl<'s> Model for UnitReader<'s> {
    ghost use Rattle.tml_span.specs.Reader.{Reading, IsReading};

    ghost Value = { Reading };

    ghost view = { λ a. a.cutter };

    ghost invariant = { λ a. IsReading a.cutter };
}

/// Looks at a source of fewer than 2^32 bytes once as a whole, which takes no memory, and gives a reader that has given
/// no unit.
///
/// # Errors
///
/// The fault of the source, where it has one.
pub fn reader<'s>(source: &'s [u8]) -> Result<UnitReader<'s>, PlainCut>
    requires { length source.now < 2 ^ 32 }
    ensures ok { IfOk result (λ r. BeginsReading source.now r) }
    ensures err { IfErr result (λ e. HasPlainFault source.now e) }
{
    let cutter = Cutter::new(source)?;
    cutter.check()?;
    Ok(UnitReader { cutter })
}

impl<'s> UnitReader<'s> {
    ghost use Rattle.tml_span.specs.Reader.{IsReading, GivesUnit};

    /// The end of the last unit that was given, or 0.
    pub fn place(&self) -> u32
        ensures place { result ≡ self.now.place }
        ensures reading { IsReading self.now }
    {
        self.cutter.place()
    }

    /// The source of the units.
    pub fn source(&self) -> &'s [u8]
        ensures source { result.now ≡ self.now.source }
        ensures reading { IsReading self.now }
    {
        self.cutter.source()
    }

    /// The next unit. None comes exactly where all units were given, and again then.
    ///
    /// # Errors
    ///
    /// Out of memory the reader is unchanged, and a later call may succeed.
    pub fn pull(&mut self, alloc: Global) -> Result<Option<Unit<'s>>, Memory>
        ensures gives { GivesUnit self.old self.new result }
    {
        match self.cutter.pull(alloc) {
            Ok(found) => Ok(found),
            // The source has no fault, so this is want of memory.
            Err(_) => Err(Memory),
        }
    }
}
