//! Laws of lengths and of nets with limits: public functions that do nothing, each with the law as its contract.
ghost use Rattle.seconds_build.specs.Built.{EveryTimed, OneTimed};
ghost use Rattle.seconds_build.specs.Lengths.{DurationsAreBelowTheLimit};

/// The seconds of a duration that a text spells are below the limit, so no length is lost by it.
pub fn durations_are_below_the_limit()
    ensures { DurationsAreBelowTheLimit }
{}

/// A document has one net with limits.
pub fn one_timed()
    ensures { OneTimed }
{}

/// Every document has a net with limits.
pub fn every_document_is_timed()
    ensures { EveryTimed }
{}
