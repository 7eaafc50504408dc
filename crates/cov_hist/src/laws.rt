//! Laws of what a history tells of its past. Each function does nothing; what it ensures is the law.
ghost use Rattle.cov_hist.specs.Laws.{OriginsStay, PastStays, RefusedOptionsAreDeclared};

/// Whatever follows a history, the answers at its positions stay: the same bindings are the same choice or refused alike, and the
/// variant of each choice is the same.
pub fn past_stays()
    ensures { PastStays }
{}

/// Whatever follows a history, the lines that it has come from the same commits.
pub fn origins_stay()
    ensures { OriginsStay }
{}

/// Where bindings bind declared options alone, so is each option for which they are refused at a position.
pub fn refused_options_are_declared()
    ensures { RefusedOptionsAreDeclared }
{}
