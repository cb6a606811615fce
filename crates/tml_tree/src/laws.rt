//! Laws of trees: public functions that do nothing, each with the law as its contract.
ghost use Rattle.std.specs.Prelude.{List, ℕ};
ghost use Rattle.tml_span.specs.Units.{PlainUnit};
ghost use Rattle.tml_tree.specs.Places.{TreeIsLaidOut};
ghost use Rattle.tml_tree.specs.Trees.{LastUnit, OneTreeAnswers, OnePath, OneTree, PathEnds};
ghost use Rattle.tml_tree.specs.Walking.{ElementsAreTags};
ghost use Rattle.tml_tree.specs.Whole.{HaveTreeOrFault, OneSourceAnswers, OneTreeOfSource, TreeOrFault};
ghost use Rattle.tml_tree.specs.Written.{WrittenIsRead};

/// Units have one path.
pub fn one_path()
    ensures { OnePath }
{}

/// Units that end in a unit have a path only where those without it have one, and the kind of the unit says how the
/// open tags differ.
pub fn last_unit()
    ensures { LastUnit }
{}

/// The units before one at fault have a path, and with it they have none.
pub fn path_ends()
    ensures { PathEnds }
{}

/// Units make one tree.
pub fn one_tree()
    ensures { OneTree }
{}

/// The elements of a tree are the start and empty tags of its units, in their order.
pub fn elements_are_tags()
    ensures { ElementsAreTags }
{}

/// A source has one tree.
pub fn one_tree_of_source()
    ensures { OneTreeOfSource }
{}

/// A tree and each of the faults exclude each other, and units have one fault at most.
pub fn one_answer()
    ensures { OneTreeAnswers }
{}

/// A tree and a fault of a source exclude each other, and a source has one fault at most.
pub fn one_source_answer()
    ensures { OneSourceAnswers }
{}

/// Whatever units they are, and however long their source is, they make a tree or have a fault.
pub fn units_are_judged()
    ensures { (end : ℕ) (us : List PlainUnit) → HaveTreeOrFault end us }
{}

/// Every source has a tree or a fault.
pub fn tree_or_fault()
    ensures { (source : List ℕ) → TreeOrFault source }
{}

/// Each slice of the tree of a source is the source at its place, siblings follow each other inside their parent, and
/// at most 32 elements are inside each other.
pub fn tree_is_laid_out()
    ensures { TreeIsLaidOut }
{}

/// A tree that is written is read again as it was, but for places.
pub fn written_is_read()
    ensures { WrittenIsRead }
{}
