//! Laws of what an image holds. Each function does nothing; what it ensures is the law.
ghost use Rattle.cov_journal.specs.Laws.{OneJournal, GateIsWithin};

/// An image holds one list of payloads at most.
pub fn one_journal()
    ensures { OneJournal }
{}

/// The next gate of what fits an image's payloads is within it.
pub fn gate_is_within()
    ensures { GateIsWithin }
{}
