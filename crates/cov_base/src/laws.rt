//! Laws of the rows of a variant. Each function does nothing; what it ensures is the law.
ghost use Rattle.cov_base.specs.Reaching.{WaysAreShort, FaultsAreFound};

/// The root is reached from a node exactly where it is in as many steps as there are rows.
pub fn ways_are_short()
    ensures { WaysAreShort }
{}

/// Rows of different nodes have a fault exactly where two clash or the root isn't reached from one, in whatever order they stand.
pub fn faults_are_found()
    ensures { FaultsAreFound }
{}
