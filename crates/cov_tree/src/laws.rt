//! Laws of plans and rows. Each function does nothing; what it ensures is the law.
ghost use Rattle.cov_tree.specs.Laws.{PlansStay, RowsStay, NodesStay, OnceStays, OptionsStay};

/// A plan makes the same changes in each table that its own grows to.
pub fn plans_stay()
    ensures { PlansStay }
{}

/// The rows at a position, and those with a plan, are the same in each table to which that of their visibilities grows.
pub fn rows_stay()
    ensures { RowsStay }
{}

/// The visibilities are nodes of each table that theirs grows to.
pub fn nodes_stay()
    ensures { NodesStay }
{}

/// No node has two rows, and the root none, in any table that theirs grows to.
pub fn once_stays()
    ensures { OnceStays }
{}

/// The rows depend on no option at or above a count in any table that theirs grows to, nor at or above a greater count.
pub fn options_stay()
    ensures { OptionsStay }
{}
