//! Laws of values: public functions that do nothing, each with the law as its contract.
ghost use Rattle.std.specs.Prelude.{List, ℕ};
ghost use Rattle.timex_value.specs.Values.{HasValueOrNoFilling, OneValue, ValueOrBad};

/// A text has one value.
#[tactic(auto, using(crate::proofs::Valuing::one_value))]
pub fn one_value()
    ensures { OneValue }
{}

/// A text that has a value is not one whose fillings are all invalid.
#[tactic(auto, using(crate::proofs::Valuing::value_or_bad))]
pub fn value_or_bad()
    ensures { ValueOrBad }
{}

/// Every text has a value, or is a calendar text without a valid filling.
pub fn every_text()
    ensures { (text : List ℕ) → HasValueOrNoFilling text }
{}
