//! All units of a source.
ghost use Rattle.std.specs.Prelude.{◌≡◌, ◌<◌, ◌^◌, length, map, IfOk, IfErr};
ghost use Rattle.std.specs.List.{AllByRecursion};
ghost use Rattle.tml_span.specs.Faults.{HasCutFault};
ghost use Rattle.tml_span.specs.Slices.{UnitIsIn};
ghost use Rattle.tml_span.specs.Whole.{IsWhole};

use crate::fault::{Cut, cut_of};
use crate::unit_reader::reader;
use crate::{List, Unit};
use std::alloc::Global;
use std::marker::Model;

/// Units that follow each other from 0 without gap, and the source that they come from, of which they
/// are all the units.
#[derive(Drop)]
pub struct UnitList<'s> {
    source: &'s [u8],
    units: List<Unit<'s>>,
}

impl<'s> Model for UnitList<'s> {
    ghost use Rattle.std.specs.Prelude.{map};
    ghost use Rattle.tml_span.specs.Whole.{Cutting, IsSmallWhole};
    ghost use Rattle.tml_span.specs.View.{unit_of};

    ghost Value = { Cutting };

    ghost view = { λ a. record { source = a.source.now; units = map unit_of a.units } };

    ghost invariant = { λ a. IsSmallWhole (record { source = a.source.now; units = map unit_of a.units }) };
}

impl<'s> UnitList<'s> {
    ghost use Rattle.tml_span.specs.View.{unit_of};

    /// The end of the last unit, or 0 where there is none.
    pub fn length(&self) -> u32
        ensures { result ≡ length self.now.source }
    {
        self.source.len() as u32
    }

    /// The units, in the order of the source.
    pub fn as_slice(&self) -> &[Unit<'s>]
        ensures units { map unit_of result.now ≡ self.now.units }
        ensures whole { IsWhole self.now }
    {
        self.units.as_slice()
    }

    /// The source of the units.
    pub fn source(&self) -> &'s [u8]
        ensures source { result.now ≡ self.now.source }
        ensures whole { IsWhole self.now }
    {
        self.source
    }

    /// The units, in the order of the source.
    pub fn into_list(self) -> List<Unit<'s>>
        ensures units { map unit_of result ≡ self.entry.units }
        ensures whole { IsWhole self.entry }
    {
        self.units
    }
}

/// Cuts a source into its units. The source has fewer than 2^32 bytes.
pub fn units<'s>(alloc: Global, source: &'s [u8]) -> Result<UnitList<'s>, Cut>
    requires { length source.now < 2 ^ 32 }
    ensures source { IfOk result (λ l. l.source ≡ source.now) }
    ensures whole { IfOk result (λ l. IsWhole l) }
    ensures slices { IfOk result (λ l. AllByRecursion (UnitIsIn l.source) l.units) }
    ensures fault { IfErr result (λ e. HasCutFault source.now e) }
{
    let mut reader = match reader(source) {
        Ok(reader) => reader,
        Err(fault) => return Err(cut_of(fault)),
    };
    let mut units = List::new(alloc);
    loop {
        match reader.pull(alloc) {
            Ok(Some(unit)) => {
                if units.push(unit).is_err() {
                    return Err(Cut::Memory);
                }
            }
            Ok(None) => return Ok(UnitList { source, units }),
            Err(_) => return Err(Cut::Memory),
        }
    }
}
