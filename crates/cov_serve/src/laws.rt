//! Laws of what a script is answered. Each function does nothing; what it ensures is the law.
ghost use Rattle.cov_serve.specs.Laws.{DemosAreScripts, TurnsAreAnswers};

/// The turns of a script are what its lines are answered: the same replies and rows, in order, and the same history after them.
pub fn turns_are_answers()
    ensures { TurnsAreAnswers }
{}

/// What a number's script comes to is what the lines of its text are answered: the replies of its checkouts and a last line, all rows, and
/// the history after them.
pub fn demos_are_scripts()
    ensures { DemosAreScripts }
{}
