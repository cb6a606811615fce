//! Laws of canonical texts: public functions that do nothing, each with the law as its contract.
ghost use Rattle.tml_canon.specs.Laws.{CanonicalIsItself, CanonicalIsRead, CanonicalIsSame, CanonicalSaysTheSame, OneCanonicalText};

/// The canonical text of the tree of a source has no fault of the cut and none of nesting.
pub fn canonical_is_read()
    ensures { CanonicalIsRead }
{}

/// The tree of a canonical text is the same as the one that was written, but for places, quotes and the order of
/// attributes.
pub fn canonical_is_same()
    ensures { CanonicalIsSame }
{}

/// A canonical text is its own canonical text.
pub fn canonical_is_itself()
    ensures { CanonicalIsItself }
{}

/// Where the attributes and references of a tree break no rule, those of its canonical text break none, and say the same.
pub fn canonical_says_the_same()
    ensures { CanonicalSaysTheSame }
{}

/// Two trees whose attributes and references break no rule have one canonical text exactly where they are the same.
pub fn one_canonical_text()
    ensures { OneCanonicalText }
{}
