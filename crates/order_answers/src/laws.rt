//! Laws of nets: public functions that do nothing, each with the law as its contract.
ghost use Rattle.order_answers.specs.Ask.{OneCounterexample};
ghost use Rattle.order_answers.specs.Relations.{ClosuresEntailWhatFollows};

/// If a counterexample is an answer to what is asked of a net, it is the only one: so of Done of `ask` only which walks
/// prove a relation is free.
pub fn one_counterexample()
    ensures { OneCounterexample }
{}

/// The closure of a net entails a relation exactly if it holds in every timeline that fits, and its rows are all of
/// these: so `entailed` and `rows` of `derive_rel` answer what follows.
pub fn closures_entail_what_follows()
    ensures { ClosuresEntailWhatFollows }
{}
