//! Laws of typed tags: public functions that do nothing, each with the law as its contract.
ghost use Rattle.std.specs.Prelude.{List};
ghost use Rattle.tml_tree.specs.Walking.{PlainTag};
ghost use Rattle.tml_types.specs.Answers.{OneTypedAnswers, TypedOrFault};

/// Typed tags and a fault exclude each other. Tags have one fault at most, and one list of typed tags at most.
pub fn one_answer()
    ensures { OneTypedAnswers }
{}

/// Whatever tags they are, they have typed tags or a fault.
pub fn typed_or_fault()
    ensures { (tags : List PlainTag) → TypedOrFault tags }
{}
