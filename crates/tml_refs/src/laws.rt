//! Laws of typed tags: public functions that do nothing, each with the law as its contract.
ghost use Rattle.tml_refs.specs.Answers.{AllAreResolved, OneDocumentAnswers};

/// A document and a fault exclude each other, and of both typed tags have at most one.
pub fn one_answer()
    ensures { OneDocumentAnswers }
{}

/// The typed tags of tags make a document or have a fault.
pub fn resolved_or_fault()
    ensures { AllAreResolved }
{}
