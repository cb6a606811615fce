//! Laws of reduced links and of scores: public functions that do nothing, each with a law as its contract.
ghost use Rattle.tml_score.specs.Reduced.{EveryNetIsReduced, OneReducedList, ReducedLinksSayTheSame};
ghost use Rattle.tml_score.specs.Scores.{EveryScore, OneScore};

/// The links that stay say the same as all links of a net, and each of them is needed: it can be false if the others
/// are true.
pub fn reduced_links_say_the_same()
    ensures { ReducedLinksSayTheSame }
{}

/// A net has one list of links that stay.
pub fn one_reduced_list()
    ensures { OneReducedList }
{}

/// If some timeline fits a net there are links that stay.
pub fn every_net_is_reduced()
    ensures { EveryNetIsReduced }
{}

/// Of two annotations there is one set of scores.
pub fn one_score()
    ensures { OneScore }
{}

/// If some timeline fits each of two annotations there are scores.
pub fn every_score()
    ensures { EveryScore }
{}
