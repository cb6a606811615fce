//! A law: a public function that does nothing, with the law as its contract.
ghost use Rattle.tml_possible.specs.Possible.{NetsHaveOneList};

/// Of the base relations that two intervals of a net can have, each with the least timeline that shows it, there is one
/// list at most.
pub fn one_item_list()
    ensures { NetsHaveOneList }
{}
