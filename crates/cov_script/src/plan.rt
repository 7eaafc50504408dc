// What is drawn of a commit of the generated script.
ghost use Rattle.std.specs.Prelude.{◌≡◌, ◌<◌, ◌++◌, OnOk};
ghost use Rattle.cov_script.specs.Commits.{ambition_of, kind_of, plan_of, opening_line};
ghost use Rattle.cov_script.specs.Draws.{state_after};

use crate::draws::Draws;
use crate::word::append_numbered;
use cov_base::{Memory, Text};

/// For which variants a commit is, where one option is on in its session.
#[derive(Clone, Copy)]
pub(crate) enum Ambition {
    /// For every one.
    Always,
    /// Where this option is on.
    On,
    /// Where this option or another is on.
    Either,
    /// Where this option is on without another.
    Without,
}

/// A commit before its lines are drawn.
#[derive(Clone, Copy)]
pub(crate) struct Plan {
    /// The option that is on in its session.
    pub(crate) on: u32,
    /// Another option, that its ambition may name.
    pub(crate) other: u32,
    pub(crate) ambition: Ambition,
    /// The file into which it inserts its lines.
    pub(crate) file: u32,
}

impl Plan {
    pub(crate) fn draw(draws: &mut Draws) -> Plan
        ensures plan { result ≡ plan_of draws.old }
        ensures draws { draws.new ≡ state_after 4 draws.old }
        ensures file { result.file < 64 }
    {
        let on = 6 + draws.below(58);
        let other = 6 + draws.below(58);
        let number = draws.below(4);
        let file = draws.below(64);
        Plan {
            on,
            other,
            ambition: ambition_of(kind_of(on, other, number)),
            file,
        }
    }

    /// Appends the line that opens its session.
    pub(crate) fn append_opening(&self, text: &mut Text) -> Result<(), Memory>
        ensures { OnOk result (text.new ≡
            text.old ++ opening_line self.now.on self.now.other self.now.ambition) }
    {
        append_numbered(text, b"open s o", self.on)?;
        match self.ambition {
            Ambition::Always => text.append(b"=on for true\n"),
            Ambition::On => {
                append_numbered(text, b"=on for o", self.on)?;
                text.append(b"\n")
            }
            Ambition::Either => {
                append_numbered(text, b"=on for o", self.on)?;
                append_numbered(text, b" | o", self.other)?;
                text.append(b"\n")
            }
            Ambition::Without => {
                append_numbered(text, b"=on,o", self.other)?;
                append_numbered(text, b"=off for o", self.on)?;
                append_numbered(text, b" & !o", self.other)?;
                text.append(b"\n")
            }
        }
    }
}

// The number of the ambition: where both options are one, it names no second one.
fn kind_of(on: u32, other: u32, number: u32) -> u32
    ensures { result ≡ kind_of on other number }
{
    if on == other && 2 <= number {
        return 1;
    }
    number
}

fn ambition_of(number: u32) -> Ambition
    ensures { result ≡ ambition_of number }
{
    match number {
        0 => Ambition::Always,
        1 => Ambition::On,
        2 => Ambition::Either,
        _ => Ambition::Without,
    }
}
