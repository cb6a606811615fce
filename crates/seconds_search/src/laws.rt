//! The law of placings: a public function that does nothing, with the law as its contract.
ghost use Rattle.seconds_search.specs.Decided.{EveryNetIsDecided};

/// Each net has a placing, or a negative cycle shows that it has none, and their numbers are not too great.
pub fn every_net_is_decided()
    ensures { EveryNetIsDecided }
{}
