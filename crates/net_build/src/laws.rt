//! Laws of nets: public functions that do nothing, each with the law as its contract.
ghost use Rattle.net_build.specs.Built.{EveryNet, OneNet};

/// A document has one net.
pub fn one_net()
    ensures { OneNet }
{}

/// Every document has a net.
pub fn every_document_has_a_net()
    ensures { EveryNet }
{}
