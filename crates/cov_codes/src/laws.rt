//! Laws of codes. Each function does nothing; what it ensures is the law.
ghost use Rattle.cov_codes.specs.Laws.{RefusalsAreTold};

/// The refusal of a command can be told: its code names no option beyond those that are declared.
pub fn refusals_are_told()
    ensures { RefusalsAreTold }
{}
