//! Laws of the cut: public functions that do nothing, each with the law as its contract.
ghost use Rattle.std.specs.Prelude.{List, ℕ};
ghost use Rattle.tml_span.specs.Cutting.{EveryCut, OneCut};
ghost use Rattle.tml_span.specs.Faults.{CutOrFault, OneFaults};
ghost use Rattle.tml_span.specs.Pieces.{UnitsAreGood};
ghost use Rattle.tml_span.specs.Slices.{SlicesAreInSource};
ghost use Rattle.tml_span.specs.Written.{WrittenIsCut};

/// Every source has a cut.
pub fn every_cut()
    ensures { EveryCut }
{}

/// A source is cut in one way, so its units are the only ones.
pub fn one_cut()
    ensures { OneCut }
{}

/// A source has one fault at most, and none where it is cut whole.
pub fn one_fault()
    ensures { OneFaults }
{}

/// Every source is cut whole or has a fault.
pub fn cut_or_fault()
    ensures { (source : List ℕ) → CutOrFault source }
{}

/// Each slice of a unit is the source at its place.
pub fn slices_are_in_source()
    ensures { SlicesAreInSource }
{}

/// Each name, value, text and comment of a source that has no fault is UTF-8 itself, and no reference in a value or a text
/// is bad.
pub fn units_are_good()
    ensures { UnitsAreGood }
{}

/// Units that are written are cut again as they were, where none of them is a Bom, a declaration or a doctype, the first
/// is no text, and no two texts meet.
pub fn written_is_cut()
    ensures { WrittenIsCut }
{}
