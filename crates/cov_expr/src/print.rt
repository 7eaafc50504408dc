// Choices as they are printed.
ghost use Rattle.std.specs.Prelude.{◌≡◌, ◌<◌, ◌≤◌, ◌++◌, length, IfOk, OnOk};
ghost use Rattle.cov_base.specs.Choices.{is_on};
ghost use Rattle.cov_base.specs.declared.limits.TheConstants.{CHOICE_WIDTH};
ghost use Rattle.cov_expr.specs.Options.{option_name};
ghost use Rattle.cov_expr.specs.ChoiceText.{binding_text, choice_text};

use crate::Options;
use cov_base::{Choice, Memory, OptionId, Text};
use std::alloc::Global;

/// The text of a choice: `-` where it binds no option, else `a=on,b=off` in order of options.
pub fn print_choice(alloc: Global, options: &Options, choice: Choice) -> Result<Text, Memory>
    requires { length choice ≤ length options.now.names }
    ensures { IfOk result (λ text. text ≡ choice_text options.now.names choice) }
{
    if choice.count() == 0 {
        return Text::from_slice(alloc, b"-");
    }
    let mut text = Text::new(alloc);
    append_binding(&mut text, options, choice, 0)?;
    for number in 1..choice.count() {
        text.push(b',')?;
        append_binding(&mut text, options, choice, number)?;
    }
    Ok(text)
}

// Appends the binding of one option.
fn append_binding(
    text: &mut Text,
    options: &Options,
    choice: Choice,
    number: u8,
) -> Result<(), Memory>
    requires bound { number < length choice }
    requires declared { number < length options.now.names }
    requires small { number < CHOICE_WIDTH }
    ensures { OnOk result (text.new ≡ text.old ++
        binding_text (option_name options.now.names number) (is_on choice number)) }
{
    let option = OptionId::new(number);
    text.append(options.name(option))?;
    text.append(match choice.get(option) {
        true => b"=on",
        false => b"=off",
    })
}
