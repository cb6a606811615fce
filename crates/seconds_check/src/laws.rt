//! Laws of the checker: public functions that do nothing, each with the law as its contract.
ghost use Rattle.seconds_check.specs.Refusals.{ConfirmedOrRefused, OneSecondsVerdict};

/// Evidence is not both confirmed and refused, and is refused for one reason at most.
pub fn one_verdict()
    ensures { OneSecondsVerdict }
{}

/// Whatever the net and its limits are, a placing or a cycle is confirmed or refused.
pub fn confirmed_or_refused()
    ensures { ConfirmedOrRefused }
{}
