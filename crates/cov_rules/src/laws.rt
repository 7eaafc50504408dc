//! Laws of rules. Each function does nothing; what it ensures is the law.
ghost use Rattle.cov_rules.specs.Completion.{CompletedIsValid};
ghost use Rattle.cov_rules.specs.Growth.{HoldInGrownTable, StayBelow, ValueByFirstOptions, ValidByFirstOptions};

/// Rules hold in each table that theirs grows to.
pub fn rules_hold_in_grown_table()
    ensures { HoldInGrownTable }
{}

/// Rules over the declared options are rules over more options.
pub fn rules_stay_below()
    ensures { StayBelow }
{}

/// An expression, and the constraints, say the same of a choice and of its first options, if their own are among them.
pub fn first_options_decide()
    ensures value { ValueByFirstOptions }
    ensures valid { ValidByFirstOptions }
{}

/// The choice that completes a partial one has all options, meets the constraints and agrees with it.
pub fn completed_is_valid()
    ensures { CompletedIsValid }
{}
