//! Laws of what images stand for. Each function does nothing; what it ensures is the law.
ghost use Rattle.cov_store.specs.Laws.{OneHistory, OneDamage, DamagedIsNone, NoStoreIsNone};

/// An image stands for one history at most.
pub fn one_history()
    ensures { OneHistory }
{}

/// An image has one damage at most.
pub fn one_damage()
    ensures { OneDamage }
{}

/// An image with damage stands for no history.
pub fn damaged_is_none()
    ensures { DamagedIsNone }
{}

/// An image that is no store stands for no history and has no damage.
pub fn no_store_is_none()
    ensures { NoStoreIsNone }
{}
