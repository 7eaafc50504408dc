//! Laws of trees. Each function does nothing; what it ensures is the law.
ghost use Rattle.cov_view.specs.Laws.{TreeIsWhole};

/// The tree of a sound variant has one row of each node but the root and no others, and their paths rise.
pub fn tree_is_whole()
    ensures { TreeIsWhole }
{}
