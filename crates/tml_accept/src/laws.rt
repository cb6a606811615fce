//! Laws of documents: public functions that do nothing, each with the law as its contract.
ghost use Rattle.std.specs.Prelude.{List, ℕ};
ghost use Rattle.tml_accept.specs.Acceptance.{AcceptedOrFault, OneAcceptances};

/// A document has at most one first fault, and none where it is accepted; and then it has one tree, and says one thing.
pub fn one_acceptance()
    ensures { OneAcceptances }
{}

/// Every document is accepted or has a first fault.
pub fn every_document_is_judged()
    ensures { (doc : List ℕ) → AcceptedOrFault doc }
{}
