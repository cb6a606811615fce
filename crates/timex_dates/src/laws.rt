//! Laws of extents, bounds and texts: public functions that do nothing, each with the law as its contract.
ghost use Rattle.timex_dates.specs.Answers.{EveryBounds, OneBounds, OneExtent};
ghost use Rattle.timex_dates.specs.Printed.{EveryText, OneText};

/// The seconds that belong to a value have one extent.
pub fn one_extent()
    ensures { OneExtent }
{}

/// A time has one answer.
pub fn one_bounds()
    ensures { OneBounds }
{}

/// A second has one civil text.
pub fn one_text()
    ensures { OneText }
{}

/// Every time has an answer: bounds in order, whose numbers have civil texts.
pub fn every_time()
    ensures { EveryBounds }
{}

/// Every second of the civil calendar has a civil text.
pub fn every_text()
    ensures { EveryText }
{}
