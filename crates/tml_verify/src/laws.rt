//! A law of the words: a function that does nothing, with the law as its contract. Those of each program are in `runs`.
ghost use Rattle.answers.specs.Judged.{JudgesFirst};
ghost use Rattle.std.specs.Prelude.{List, ℕ};
ghost use Rattle.tml_verify.specs.Either.{either_rows};

/// The document is judged first: if it is at fault, the other file is not started.
pub fn judges_first()
    ensures { (doc other : List ℕ) → JudgesFirst doc (either_rows doc other) }
{}
