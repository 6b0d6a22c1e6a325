//! Laws about tables, each as the contract of a function that does nothing.

ghost use Rattle.sg_report.specs.Laws.{TableIsOne, TablesAreWorked};

/// A commitment with an upper bound has one table.
pub fn table_is_one()
    ensures { TableIsOne }
{}

/// The tables of two small games, worked out by hand.
pub fn tables_are_worked()
    ensures { TablesAreWorked }
{}
