// The commands of a history, with how many lines there were after each.
ghost use Rattle.std.specs.Prelude.{◌≡◌, ◌<◌, ◌≤◌, ◌++◌, [], ◌∷◌, length, take, OnOk};
ghost use Rattle.cov_base.specs.declared.limits.TheConstants.{CHOICE_WIDTH};
ghost use Rattle.cov_edit.specs.Fits.{reach_of};
ghost use Rattle.cov_edit.specs.Numbering.{line_count};

use cov_base::{Memory, Position};
use cov_edit::{Command, Commands};
use std::alloc::Global;
use std::marker::Model;

/// A list of commands that keeps of each how many lines there were after it. Contracts see it as the commands and the number of
/// commands for which there is room.
#[derive(Drop)]
pub(crate) struct CountedCommands {
    commands: Commands,
    line_counts: Vec<u32>,
}

impl Model for CountedCommands {
    ghost use Rattle.std.specs.Prelude.{◌-◌, min, vec_len, vec_capacity};
    ghost use Rattle.std.specs.Coded.{codes};
    ghost use Rattle.cov_edit.specs.contracts.command.Command as row;
    ghost use Rattle.cov_edit.specs.Recorded.{Recorded};
    ghost use Rattle.cov_engine.specs.LineCounts.{AreLineCounts};

    ghost Value = { Recorded };

    ghost coded = { Prim.hlevel (codes, row.the_row.coded) };

    ghost view = { λ c. record {
      commands = c.commands.commands;
      spare = min c.commands.spare (vec_capacity c.line_counts - vec_len c.line_counts);
    } };

    ghost invariant = { λ c. AreLineCounts c.commands.commands c.line_counts.items };
}

impl CountedCommands {
    pub(crate) fn new(alloc: Global) -> CountedCommands
        ensures { result.commands ≡ [] }
    {
        CountedCommands {
            commands: Commands::new(alloc),
            line_counts: Vec::new(alloc),
        }
    }

    /// Makes room for one command more.
    pub(crate) fn reserve(&mut self) -> Result<(), Memory>
        ensures same { self.new.commands ≡ self.old.commands }
        ensures room { OnOk result (0 < self.new.spare) }
    {
        self.line_counts.reserve(1)?;
        self.commands.reserve()
    }

    /// Appends a command after which there are so many lines. Takes no memory.
    pub(crate) fn push(&mut self, command: Command, lines: u32)
        requires room { 0 < self.old.spare }
        requires reach { reach_of command ≤ CHOICE_WIDTH }
        requires lines { lines ≡ line_count (self.old.commands ++ command ∷ []) }
        ensures { self.new.commands ≡ self.old.commands ++ command ∷ [] }
    {
        match self.commands.push(command) {
            Ok(()) => (),
            Err(_) => unreachable!(),
        }
        self.line_counts.push_reserved(lines);
    }

    pub(crate) fn len(&self) -> usize
        ensures { result ≡ length self.now.commands }
    {
        self.commands.len()
    }

    /// The commands in order.
    pub(crate) fn as_slice(&self) -> &[Command]
        ensures { result.now ≡ self.now.commands }
    {
        self.commands.as_slice()
    }

    /// How many lines the first so many commands insert. It takes the same time for a position of long ago.
    pub(crate) fn line_count_at(&self, at: Position) -> u32
        requires { at ≤ length self.now.commands }
        ensures { result ≡ line_count (take at self.now.commands) }
    {
        match at.number() {
            0 => 0,
            number => self.line_counts[number as usize - 1],
        }
    }
}
