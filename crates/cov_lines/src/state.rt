// What a run has made so far.
ghost use Rattle.std.specs.Prelude.{◌≡◌};
ghost use Rattle.cov_lines.specs.States.{starting};

use crate::nearest_choices::NearestChoices;
use crate::tree_names::TreeNames;
use cov_engine::Engine;
use cov_session::Sessions;
use std::alloc::Global;
use std::marker::Model;

/// What the script has made so far: the history, the sessions that are open, and the names of the trees that were written; and one
/// analysis of the constraints, which no contract tells.
#[derive(Drop)]
pub(crate) struct ServerState {
    pub(crate) alloc: Global,
    pub(crate) engine: Engine,
    pub(crate) sessions: Sessions,
    pub(crate) trees: TreeNames,
    pub(crate) nearest: NearestChoices,
}

impl Model for ServerState {
    ghost use Rattle.std.specs.Prelude.{map};
    ghost use Rattle.std.specs.Coded.{codes, coded_ℕ};
    ghost use Rattle.cov_dd.specs.contracts.triple.Triple as triples;
    ghost use Rattle.cov_expr.specs.Formula.{formula_code};
    ghost use Rattle.cov_edit.specs.contracts.command.Command as command_row;
    ghost use Rattle.cov_edit.specs.contracts.sided.Sided as sided_row;
    ghost use Rattle.cov_lines.specs.States.{Serving};
    ghost use Rattle.cov_session.specs.Calls.{AreOpen};
    ghost use Rattle.cov_session.specs.Open.{as_named};

    ghost Value = { Serving };

    ghost coded = { Prim.hlevel (
      codes,
      formula_code coded_ℕ,
      command_row.the_row.coded,
      sided_row.the_row.coded,
      triples.the_row.coded,
    ) };

    ghost view = { λ s. record {
      state = record {
        history = s.engine.history;
        sessions = map as_named s.sessions;
        trees = s.trees;
      };
      table = s.engine.table;
      nodes = s.engine.nodes;
    } };

    ghost invariant = { λ s. AreOpen s.engine.history s.sessions };
}

impl ServerState {
    /// The state of a run that begins with a history.
    pub(crate) fn new(alloc: Global, engine: Engine) -> ServerState
        ensures state { result.state ≡ starting engine.history }
        ensures table { result.table ≡ engine.table }
        ensures nodes { result.nodes ≡ engine.nodes }
    {
        ServerState {
            alloc,
            engine,
            sessions: Sessions::new(alloc),
            trees: TreeNames::new(alloc),
            nearest: NearestChoices::new(),
        }
    }
}
