//! Laws of rows: public functions that do nothing, each with the law as its contract.
ghost use Rattle.derive_rel.specs.Entailed.{EveryConditionHasRows, OneRowList};

/// A table has one list of rows.
pub fn one_row_list()
    ensures { OneRowList }
{}

/// Whatever condition rows are to meet, if only rows of intervals below a number meet it, there is a list of all of them.
pub fn every_condition_has_rows()
    ensures { EveryConditionHasRows }
{}
