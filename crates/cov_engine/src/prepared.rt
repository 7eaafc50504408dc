// Commands that a history has accepted, and doesn't have yet.
ghost use Rattle.std.specs.Prelude.{◌≡◌, ◌<◌, ◌+◌, ◌++◌, [], ◌∷◌, None, length};
ghost use Rattle.cov_dd.specs.Diagrams.{Extends};
ghost use Rattle.cov_engine.specs.Ready.{IsReadyFor};
ghost use Rattle.cov_history.specs.Verdict.{verdict};
ghost use Rattle.cov_engine.specs.States.{history_of, table_of, receipt_number};

use crate::Engine;
use crate::addition::Addition;
use crate::installing::{add, give_up};
use crate::state::EngineState;
use cov_base::Position;
use cov_edit::Command;
use std::marker::Model;

/// A history and a command that it accepts. Everything is ready for the command.
#[derive(Drop)]
pub struct Prepared {
    state: EngineState,
    command: Command,
    ready: Addition,
}

impl Model for Prepared {
    ghost use Rattle.std.specs.Coded.{codes};
    ghost use Rattle.cov_dd.specs.contracts.triple.Triple as triples;
    ghost use Rattle.cov_edit.specs.contracts.command.Command as row;
    ghost use Rattle.cov_dd.specs.Diagrams.{Extends};
    ghost use Rattle.cov_engine.specs.Ready.{IsPrepared};
    ghost use Rattle.cov_engine.specs.States.{Pending, history_of, table_of};

    ghost Value = { Pending };

    ghost coded = { Prim.hlevel (codes, row.the_row.coded, triples.the_row.coded) };

    ghost view = { λ p.
        record { history = history_of p.state; command = p.command; table = table_of p.state } };

    ghost invariant = { λ p. IsPrepared p.state p.command p.ready };
}

/// What a command made: the position after it, and the option's number, the rule's within its kind, 0 for a commit, or 2 for an upgrade.
#[derive(Clone, Copy, Debug, PartialEq, Eq)]
pub struct Receipt {
    pub position: Position,
    pub number: u32,
}

impl Prepared {
    pub(crate) fn new(state: EngineState, command: Command, ready: Addition) -> Prepared
        requires accepted { verdict (history_of state) command ≡ None }
        requires room { 0 < state.commands.spare }
        requires ready { IsReadyFor state command ready }
        ensures { result ≡
            record { history = history_of state; command = command; table = table_of state } }
    {
        command.bounds_are_kept();
        Prepared {
            state,
            command,
            ready,
        }
    }

    /// The command.
    pub fn command(&self) -> &Command
        ensures { result.now ≡ self.now.command }
    {
        &self.command
    }

    /// The history without the command. Every node keeps its value.
    pub fn cancel(self) -> Engine
        ensures same { result.history ≡ self.history }
        ensures extends { Extends self.table result.table }
    {
        let Prepared {
            mut state,
            command,
            ready,
        } = self;
        give_up(&mut state, &command, &ready);
        Engine::of_state(state)
    }

    /// The history with the command. Takes no memory. Every node keeps its value.
    pub fn install(self) -> (Engine, Receipt)
        ensures history { result.0.history ≡ self.history ++ self.command ∷ [] }
        ensures position { result.1.position ≡ length self.history + 1 }
        ensures number { result.1.number ≡ receipt_number self.history self.command }
        ensures extends { Extends self.table result.0.table }
    {
        let Prepared {
            mut state,
            command,
            ready,
        } = self;
        let number = add(&mut state, &command, ready);
        let lines = state.counts.lines;
        state.commands.push(command, lines);
        let position = Position::new(state.commands.len() as u32);
        (Engine::of_state(state), Receipt { position, number })
    }
}
