//! Laws of the text of evidence: public functions that do nothing, each with the law as its contract.
ghost use Rattle.evidence_format.specs.Begun.{IsBadLine, TextOrBadLine};
ghost use Rattle.evidence_format.specs.Bundles.{BundleOrBadLine, IsBadLineOfEither, IsBundleText, IsTextOfEither, SameBegunBundle};
ghost use Rattle.evidence_format.specs.Evidence.{IsText, PlainEvidence};
ghost use Rattle.evidence_format.specs.Parts.{SameBegun};
ghost use Rattle.std.specs.Prelude.{List, ℕ, ◌≡◌};

/// No evidence has two texts, and no text is that of two values.
pub fn one_text()
    ensures texts { (e : PlainEvidence) (text other : List ℕ) → IsText e text → IsText e other → text ≡ other }
    ensures values { (d e : PlainEvidence) (text : List ℕ) → IsText d text → IsText e text → d ≡ e }
{}

/// A text has one bad line at most.
pub fn one_bad_line()
    ensures { (text : List ℕ) (m n : ℕ) → IsBadLine text m → IsBadLine text n → m ≡ n }
{}

/// Lines are begun by their parts exactly where they are the first lines of the text of some evidence.
pub fn same_begun()
    ensures { SameBegun }
{}

/// Every text is that of evidence, or is that of none and has a bad line.
pub fn text_or_bad_line()
    ensures { (text : List ℕ) → TextOrBadLine text }
{}

/// No claims have two texts of version 2, and no text, in either version, is that of two lists of claims.
pub fn one_bundle_text()
    ensures texts { (es : List PlainEvidence) (text other : List ℕ) → IsBundleText es text → IsBundleText es other → text ≡ other }
    ensures values { (ds es : List PlainEvidence) (text : List ℕ) → IsTextOfEither ds text → IsTextOfEither es text → ds ≡ es }
{}

/// A text has one bad line of either version at most.
pub fn one_bad_line_of_either()
    ensures { (text : List ℕ) (m n : ℕ) → IsBadLineOfEither text m → IsBadLineOfEither text n → m ≡ n }
{}

/// Lines are begun by the parts of version 2 exactly where they are the first lines of a text of version 2.
pub fn same_begun_bundle()
    ensures { SameBegunBundle }
{}

/// Every text is that of some claims, in one of the versions, or is that of none and has a bad line of either version.
pub fn bundle_or_bad_line()
    ensures { (text : List ℕ) → BundleOrBadLine text }
{}
