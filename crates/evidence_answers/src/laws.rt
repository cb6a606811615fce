//! Laws of `verify` and `confirm`: public functions that do nothing, each with the law as its contract.
ghost use Rattle.evidence_answers.specs.JudgesFirst.{ConfirmJudgesFirst, VerifyJudgesFirst};
ghost use Rattle.evidence_answers.specs.Truth.{CycleIsTrue, PlacingIsTrue};

/// `verify` judges the document first: where it is at fault, the evidence is not started.
pub fn verify_judges_first()
    ensures { VerifyJudgesFirst }
{}

/// `confirm` judges the document first: where it is at fault, the other file is not started.
pub fn confirm_judges_first()
    ensures { ConfirmJudgesFirst }
{}

/// What `confirm` says is so: where it confirms a placing, the other file holds the text of a placing of the document; and
/// where it confirms a cycle, the document has no placing.
pub fn confirmed_is_true()
    ensures placing { PlacingIsTrue }
    ensures cycle { CycleIsTrue }
{}
