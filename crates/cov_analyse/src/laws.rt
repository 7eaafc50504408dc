//! Laws of bounds. Each function does nothing; what it ensures is the law.
ghost use Rattle.cov_analyse.specs.Bounding.{BoundsAreLower};

/// Where bounds are checked, each choice on which the listing reads true differs on at least as many options as the root's bound says.
pub fn bounds_are_lower()
    ensures { BoundsAreLower }
{}
