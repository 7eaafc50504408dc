// The server of a run, and how it is opened.
ghost use Rattle.std.specs.Prelude.{◌≡◌, ◌<◌, ◌≤◌, List, ℕ, Some, length, IfOk, IfErr, IfSome};
ghost use Rattle.cov_disk.specs.Images.{LeavesOnly};
ghost use Rattle.cov_edit.specs.declared.command.Command.{Command};
ghost use Rattle.cov_journal.specs.Gates.{HasGate};
ghost use Rattle.cov_journal.specs.Moments.{KeepsImages};
ghost use Rattle.cov_journal.specs.Reading.{IsNoStore};
ghost use Rattle.cov_lines.specs.Opening.{BeginsWith};
ghost use Rattle.cov_lines.specs.States.{starting};
ghost use Rattle.cov_lines.specs.Sweeping.{IsSwept};
ghost use Rattle.cov_store.specs.Damages.{HasDamage};
ghost use Rattle.cov_store.specs.Opening.{IsImageFaultOf, HasReason, IsOfVerdict, TellsDamage, TellsNoStore};
ghost use Rattle.cov_store.specs.Stands.{StandsFor, IsStored, gate_of};
ghost use Rattle.cov_store.specs.declared.damage.StoreDamage.{StoreDamage};

use crate::state::ServerState;
use cov_base::{Memory, Position};
use cov_disk::Disk;
use cov_journal::Journal;
use cov_store::{Store, StoreFault};
use std::alloc::Global;
use std::marker::Model;
use std::mem;

/// What serves the lines of a script: what the script has made so far, and the journal that goes on behind the history. Its engine is
/// swept as it is opened, and with each 64th commit that it adds.
#[derive(Drop)]
pub struct Server {
    pub(crate) state: ServerState,
    pub(crate) journal: Journal,
    /// How many commits were added in this run.
    pub(crate) commits: u32,
}

impl Model for Server {
    ghost use Rattle.std.specs.Prelude.{◌≤◌, length};
    ghost use Rattle.std.specs.Coded.{codes, coded_ℕ};
    ghost use Rattle.cov_dd.specs.contracts.triple.Triple as triples;
    ghost use Rattle.cov_expr.specs.Formula.{formula_code};
    ghost use Rattle.cov_edit.specs.contracts.command.Command as command_row;
    ghost use Rattle.cov_edit.specs.contracts.sided.Sided as sided_row;
    ghost use Rattle.cov_lines.specs.States.{ServerValue};
    ghost use Rattle.cov_store.specs.Stands.{IsJournalOf};

    ghost Value = { ServerValue };

    ghost coded = { Prim.hlevel (
      codes,
      formula_code coded_ℕ,
      command_row.the_row.coded,
      sided_row.the_row.coded,
      triples.the_row.coded,
    ) };

    ghost view = { λ s. record {
      state = s.state.state;
      commits = s.commits;
      table = s.state.table;
      nodes = s.state.nodes;
    } };

    ghost invariant = { λ s. IsJournalOf s.journal s.state.state.history
        × (s.commits ≤ length s.state.state.history) };
}

impl Server {
    /// Opens the store of a disk, as `Store::open` does, and sweeps its engine. The run begins with its history, no session, no name of a
    /// tree and no commit.
    pub fn open<D: Disk>(alloc: Global, disk: &mut D) -> Result<Server, StoreFault>
        ensures stands { (history : List Command) →
            IfSome (D.contents disk.old) (λ image. StandsFor image history →
            BeginsWith history (D.faults disk.old) (D.faults disk.new) result) }
        ensures damage { (number : ℕ) (cause : StoreDamage) →
            IfSome (D.contents disk.old) (λ image. (damage : HasDamage image number cause) →
            TellsDamage damage.history number cause
            (D.faults disk.old) (D.faults disk.new) result) }
        ensures no_store { IfSome (D.contents disk.old) (λ image. IsNoStore image →
            TellsNoStore (D.faults disk.old) (D.faults disk.new) result) }
        ensures begins { IfOk result (λ server. server.state ≡ starting server.state.history) }
        ensures commits { IfOk result (λ server. server.commits ≡ 0) }
        ensures swept { IfOk result IsSwept }
        ensures opened { IfOk result (λ server.
            IfSome (D.contents disk.old) (λ image. StandsFor image server.state.history)) }
        ensures faulty { IfErr result (λ fault.
            IfSome (D.contents disk.old) (λ image. IsImageFaultOf image fault)) }
        ensures cause { IfErr result (HasReason (D.faults disk.old) (D.faults disk.new)) }
        ensures verdict { IfErr result IsOfVerdict }
        ensures written { IfOk result (λ server.
            IfSome (D.contents disk.new) (λ image. IsStored image server.state.history)) }
        ensures gate { IfOk result (λ server.
            HasGate (D.contents disk.new) (gate_of server.state.history)) }
        ensures kept { IfSome (D.contents disk.old) (λ image. 13 < length image →
            D.contents disk.new ≡ Some image) }
        ensures images { IfSome (D.contents disk.old) (λ image. 13 < length image →
            KeepsImages D.images D.moment D.images_since disk.old disk.new) }
        ensures stays { (history : List Command) →
            IfSome (D.contents disk.old) (λ image. StandsFor image history →
            IfSome (D.contents disk.new) (λ now. StandsFor now history)) }
        ensures stored { IfOk result (λ server. (image : List ℕ) → D.images disk.new image →
            IsStored image server.state.history) }
        ensures any_moment { (history : List Command) →
            ((image : List ℕ) → D.images disk.old image → StandsFor image history) →
            LeavesOnly D.moment D.images_since disk.old disk.new
            (λ image. StandsFor image history) }
        ensures later { D.faults disk.old ≤ D.faults disk.new }
    {
        match Store::open(alloc, disk) {
            Ok(store) => match Server::of_store(alloc, store) {
                Ok(server) => Ok(server),
                Err(Memory) => Err(StoreFault::Memory),
            },
            Err(fault) => Err(fault),
        }
    }

    // The server of a store, swept.
    fn of_store(alloc: Global, store: Store) -> Result<Server, Memory>
        ensures begins { IfOk result (λ server. server.state ≡ starting store.history) }
        ensures commits { IfOk result (λ server. server.commits ≡ 0) }
        ensures swept { IfOk result IsSwept }
    {
        let (engine, journal) = store.into_parts();
        let state = ServerState::new(alloc, engine);
        let commits = 0;
        let mut server = Server {
            state,
            journal,
            commits,
        };
        match server.sweep() {
            Ok(()) => Ok(server),
            Err(Memory) => {
                server.close();
                Err(Memory)
            }
        }
    }

    /// How many commands the history has. Takes no memory.
    pub fn position(&self) -> Position
        ensures { result ≡ length self.now.state.history }
    {
        self.state.engine.position()
    }

    /// Gives a server up at the end of the program, in the one place where that is done: the system takes all memory back at once, which
    /// takes far less time than to give back each part of it.
    pub fn close(self) {
        mem::forget(self);
    }
}
