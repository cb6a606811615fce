//! Laws of faults: public functions that do nothing, each with the law as its contract.
ghost use Rattle.faults.specs.First.{AreNumbered};
ghost use Rattle.faults.specs.Kinds.{number_of};

/// No two kinds of fault have one number.
pub fn kinds_are_numbered()
    ensures { AreNumbered number_of }
{}
