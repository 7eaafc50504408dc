//! Laws of listings. Each function does nothing; what it ensures is the law.
ghost use Rattle.cov_vis.specs.Laws.{ListingsAreOne, TestsHaveOneListing};

/// Reduced listings that read the same on every choice are equal.
pub fn listings_are_one()
    ensures { ListingsAreOne }
{}

/// Each test of choices has exactly one reduced listing that reads as it.
pub fn tests_have_one_listing()
    ensures { TestsHaveOneListing }
{}
