//! Laws of the text of placings and cycles: public functions that do nothing, each with the law as its contract.
ghost use Rattle.seconds_core.specs.Evidence.{PlainSeconds};
ghost use Rattle.seconds_format.specs.Begun.{IsBadSecondsLine, SecondsTextOrBadLine};
ghost use Rattle.seconds_format.specs.Parts.{SameBegunSeconds};
ghost use Rattle.seconds_format.specs.Texts.{IsSecondsText};
ghost use Rattle.std.specs.Prelude.{List, ℕ, ◌≡◌};

/// No placing or cycle has two texts, and no text is that of two.
pub fn one_text()
    ensures texts { (e : PlainSeconds) (text other : List ℕ) → IsSecondsText e text → IsSecondsText e other → text ≡ other }
    ensures values { (d e : PlainSeconds) (text : List ℕ) → IsSecondsText d text → IsSecondsText e text → d ≡ e }
{}

/// A text has one bad line at most.
pub fn one_bad_line()
    ensures { (text : List ℕ) (m n : ℕ) → IsBadSecondsLine text m → IsBadSecondsLine text n → m ≡ n }
{}

/// Lines are begun by their parts exactly where they are the first lines of the text of a placing or a cycle.
pub fn same_begun()
    ensures { SameBegunSeconds }
{}

/// Every text is that of a placing or a cycle, or is that of none and has a bad line.
pub fn text_or_bad_line()
    ensures { (text : List ℕ) → SecondsTextOrBadLine text }
{}
