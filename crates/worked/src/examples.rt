//! The table of worked examples, as the contract of a function.

ghost use Rattle.worked.specs.Table.{Worked};

/// Each row of the table by computing: the steps tell what it says, and the search tree holds it.
pub fn worked_examples()
    ensures { Worked }
{}
