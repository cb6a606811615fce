//! Laws of tables: public functions that do nothing, each with the law as its contract.
ghost use Rattle.order_closure.specs.Chosen.{ChosenPointsDecide};
ghost use Rattle.order_closure.specs.Tables.{max_table_points};
ghost use Rattle.order_closure.specs.Timelines.{ClosedTablesHaveTimelines, WeakerCellsCanFail};
ghost use Rattle.order_closure.specs.declared.planes.TheConstants as constants;
ghost use Rattle.std.specs.Prelude.{◌≡◌};

/// The definitions have the most points of a table of the program.
pub fn most_points_are_exact()
    ensures { constants.MAX_TABLE_POINTS ≡ max_table_points }
{}

/// The central law: where a cell of a closed table is weaker than an atom, some timeline keeps every cell and makes the
/// atom false. So a table says exactly what its atoms entail.
pub fn weaker_cells_can_fail()
    ensures { WeakerCellsCanFail }
{}

/// Some timeline keeps a closed table. A cell denies an atom exactly where no timeline that keeps the table has it: so
/// `Closed::add` answers `WouldClash` exactly where no timeline satisfies the atoms so far and this one.
pub fn closed_tables_have_timelines()
    ensures { ClosedTablesHaveTimelines }
{}

/// Whatever points of a closed table are chosen, an order of them that keeps the cells among them is their order in some
/// timeline that keeps all cells: an atom between chosen points changes their cells by their cells alone.
pub fn chosen_points_decide()
    ensures { ChosenPointsDecide }
{}
