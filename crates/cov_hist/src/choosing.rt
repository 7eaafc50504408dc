// Choices at a position of the past.
ghost use Rattle.std.specs.Prelude.{◌≡◌, ◌≤◌, length, take};
ghost use Rattle.cov_edit.specs.History.{option_count};
ghost use Rattle.cov_hist.specs.Past.{choice_after, choice_at, valid_choice, whole_choice};

use crate::PastFault;
use crate::values::{first_late, first_open, values_of};
use cov_base::{Choice, Position};
use cov_engine::Engine;
use cov_expr::Partial;

/// The choice that bindings are at a position: they are to bind exactly the options that were declared there, and each constraint of
/// then is to be true. `NoSuchPosition` comes exactly where the history has fewer commands; else `LateOption` exactly where an option
/// is bound that was declared later, or isn't declared, and names the least; else `Incomplete` exactly where an option that was
/// declared isn't bound, and names the least; else `Invalid` exactly where a constraint of then is false, and names the first. Nothing
/// is completed. Takes no memory; it takes time in the constraints and, for each option, in the bindings.
pub fn choice_at(engine: &Engine, partial: &Partial, at: Position) -> Result<Choice, PastFault>
    ensures { result ≡ choice_at engine.now.history partial.now at }
{
    if at > engine.position() {
        return Err(PastFault::NoSuchPosition);
    }
    choice_after(engine, partial, at)
}

// The choice that bindings are, unless an option is bound that was declared later.
fn choice_after(engine: &Engine, partial: &Partial, at: Position) -> Result<Choice, PastFault>
    ensures { result ≡ choice_after (take at engine.now.history) partial.now }
{
    match first_late(partial, engine.options_at(at)) {
        Some(option) => Err(PastFault::LateOption { option }),
        None => whole_choice(engine, partial, at),
    }
}

// The choice that bindings are, unless an option isn't bound.
fn whole_choice(engine: &Engine, partial: &Partial, at: Position) -> Result<Choice, PastFault>
    ensures { result ≡ whole_choice (take at engine.now.history) partial.now }
{
    let count = engine.options_at(at);
    match first_open(partial, count) {
        Some(option) => Err(PastFault::Incomplete { option }),
        None => valid_choice(engine, values_of(partial, count), at),
    }
}

// A choice, unless a constraint is false on it.
fn valid_choice(engine: &Engine, choice: Choice, at: Position) -> Result<Choice, PastFault>
    requires { option_count (take at engine.now.history) ≤ length choice }
    ensures { result ≡ valid_choice (take at engine.now.history) choice }
{
    match engine.valid_at(choice, at) {
        Ok(()) => Ok(choice),
        Err(invalid) => Err(PastFault::Invalid { rule: invalid.rule }),
    }
}
