//! A source cut into its units, and judged, as they are asked for.
ghost use Rattle.std.specs.Prelude.{◌+◌, ◌<◌, ◌≤◌, ◌^◌, ◌≡◌, true, length, drop, IfOk, IfErr, OnOk};
ghost use Rattle.tml_span.specs.Cutter.{BeginsCut};
ghost use Rattle.tml_span.specs.Faults.{HasPlainFault};

use crate::Unit;
use crate::bytes::clear_len;
use crate::check::check_units;
use crate::fault::{Cut, PlainCut, cut_of};
use crate::references::{bad_reference_in, has_pieces};
use crate::room::Room;
use crate::scan::unit_at;
use std::alloc::Global;
use std::marker::Model;

/// Gives the units of a source one by one, from the first on, and looks at each once. The source has no fault up to the
/// place; nothing is known of what follows. Contracts see the source and the place, as those of `UnitReader`.
#[derive(Drop)]
pub struct Cutter<'s> {
    source: &'s [u8],
    place: u32,
    /// No `&` stands from the place up to here: a unit that ends by then has no reference.
    clear: u32,
    /// For the attributes of the next tag.
    room: Room<'s>,
}

/// How long a unit is at least after which the next `&` is looked for: after short ones it would take longer than to look
/// through the next unit.
const LONG: u32 = 16;

impl<'s> Model for Cutter<'s> {
    ghost use Rattle.tml_span.specs.Cutter.{IsClear, IsCutSoFar};
    ghost use Rattle.tml_span.specs.Reader.{Reading};

    ghost Value = { Reading };

    ghost view = { λ a. record { source = a.source.now; place = a.place } };

    ghost invariant = { λ a. IsCutSoFar (record { source = a.source.now; place = a.place }) × IsClear a.source.now a.place a.clear };
}

impl<'s> Cutter<'s> {
    ghost use Rattle.tml_span.specs.Cutter.{CutsOn, IsClear, IsCutSoFar};
    ghost use Rattle.tml_span.specs.Faults.{HasCutFault};
    ghost use Rattle.tml_span.specs.References.{HasPiecesInOrder, IsBadIn, IsNowhere, pieces_of};
    ghost use Rattle.tml_span.specs.Slices.{UnitIsIn};
    ghost use Rattle.tml_span.specs.View.{unit_of};
    ghost use Rattle.tml_span.specs.Whole.{CutsWhole};

    /// Looks at the bytes of a source of fewer than 2^32, which takes no memory. No unit was given.
    ///
    /// # Errors
    ///
    /// The fault of the source, where it is not UTF-8.
    pub fn new(source: &'s [u8]) -> Result<Cutter<'s>, PlainCut>
        requires { length source.now < 2 ^ 32 }
        ensures ok { IfOk result (BeginsCut source.now) }
        ensures err { IfErr result (λ e. HasPlainFault source.now e) }
    {
        match simdutf8::compat::from_utf8(source) {
            Ok(_) => Ok(Cutter {
                source,
                place: 0,
                clear: 0,
                room: Room::new(),
            }),
            Err(e) => Err(PlainCut::NotUtf8 {
                place: e.valid_up_to() as u32,
            }),
        }
    }

    /// The end of the last unit that was given, or 0.
    pub fn place(&self) -> u32
        ensures place { result ≡ self.now.place }
        ensures cut { IsCutSoFar self.now }
    {
        self.place
    }

    /// The source of the units.
    pub fn source(&self) -> &'s [u8]
        ensures source { result.now ≡ self.now.source }
        ensures cut { IsCutSoFar self.now }
    {
        self.source
    }

    /// Looks at the units that are left and gives none, which takes no memory.
    ///
    /// # Errors
    ///
    /// The fault of the source, where it has one.
    pub fn check(&self) -> Result<(), PlainCut>
        ensures ok { OnOk result (CutsWhole self.now.source) }
        ensures err { IfErr result (λ e. HasPlainFault self.now.source e) }
    {
        check_units(self.source, self.place)
    }

    /// The next unit. None comes exactly where all units were given, and again then: the source has no fault.
    ///
    /// # Errors
    ///
    /// The fault of the source, where at the place no unit begins, or one with a bad reference; out of memory that of
    /// what follows, if it has one. The cutter is unchanged.
    pub fn pull(&mut self, alloc: Global) -> Result<Option<Unit<'s>>, Cut>
        ensures { CutsOn self.old self.new result }
    {
        let left = self.left();
        let Ok(found) = unit_at(&mut self.room, alloc, self.place, left) else {
            return Err(self.out_of_memory());
        };
        let Some((unit, rest)) = found else {
            if left.is_empty() {
                return Ok(None);
            }
            return Err(Cut::BadMarkup { place: self.place });
        };
        let end = self.place + (left.len() - rest.len()) as u32;
        if self.is_clear(&unit, end) {
            self.place = end;
            return Ok(Some(unit));
        }
        if let Some(place) = bad_reference_in(&unit) {
            return Err(Cut::BadReference { place });
        }
        self.clear = self.clear_after(end, rest);
        self.place = end;
        Ok(Some(unit))
    }

    /// Takes back a unit that was given: a later tag has its attributes in the room of these.
    #[inline(always)]
    pub fn take_back(&mut self, unit: Unit<'s>)
        ensures { self.new ≡ self.old }
    {
        match unit {
            Unit::StartTag { attrs, .. } | Unit::EmptyTag { attrs, .. } => self.room.keep(attrs),
            _ => {}
        }
    }

    /// What is answered out of memory: the fault of the source, where it has one, comes before that.
    pub fn out_of_memory(&self) -> Cut
        ensures { HasCutFault self.now.source result }
    {
        match self.check() {
            Ok(()) => Cut::Memory,
            Err(fault) => cut_of(fault),
        }
    }

    /// Whether no reference of the unit at the place, which ends there, is to be looked at: no `&` stands up to its end, or
    /// it is of a kind that has none.
    #[inline(always)]
    fn is_clear(&self, unit: &Unit<'_>, end: u32) -> bool
        requires order { HasPiecesInOrder (unit_of unit.now) }
        requires inside { UnitIsIn self.now.source (unit_of unit.now) }
        requires start { (unit_of unit.now).start ≡ self.now.place }
        requires end { (unit_of unit.now).end ≡ end }
        ensures { result ≡ true → IsNowhere (IsBadIn (pieces_of (unit_of unit.now))) }
    {
        if end <= self.clear {
            return true;
        }
        !has_pieces(unit)
    }

    /// Up to where no `&` stands from the end of the unit at the place, so far as it is looked for.
    fn clear_after(&self, end: u32, rest: &[u8]) -> u32
        requires place { self.now.place ≤ end }
        requires rest { rest.now ≡ drop end self.now.source }
        requires small { end + length rest.now < 2 ^ 32 }
        ensures { IsClear self.now.source end result }
    {
        if end - self.place < LONG {
            return end;
        }
        end + clear_len(rest) as u32
    }

    /// What follows the place.
    fn left(&self) -> &'s [u8]
        ensures { result.now ≡ drop self.now.place self.now.source }
    {
        let (_, left) = self.source.split_at(self.place as usize);
        left
    }
}
