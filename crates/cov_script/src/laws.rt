// Laws of the forms of lines.
ghost use Rattle.cov_script.specs.Forms.{ReadsAsSpelt};
ghost use Rattle.cov_script.specs.Mistakes.{MistakesArePlaced, TooLongIsRefused, EachLineIsTold};

use cov_expr::reading_follows_grammar;

/// A line reads as a form exactly where it is spelt by it.
pub fn lines_read_as_spelt()
    ensures { ReadsAsSpelt }
{}

/// A line is refused with a place exactly where it is mistaken there, and as too long exactly where its expression is; and
/// each line has a form, is mistaken, or is too long.
pub fn mistakes_are_placed()
    ensures places { MistakesArePlaced }
    ensures long { TooLongIsRefused }
    ensures all { EachLineIsTold }
{
    reading_follows_grammar();
}
