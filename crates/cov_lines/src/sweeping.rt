// When the engine of a server is swept: as its store is opened, and with each so many commits of the run.
ghost use Rattle.std.specs.Prelude.{◌≡◌, ◌+◌, ◌<◌, ◌%◌, length, OnOk};
ghost use Rattle.cov_dd.specs.Sweeps.{AreReached};
ghost use Rattle.cov_lines.specs.Sweeping.{HasCounted, IsSwept, is_commit};

use crate::server::Server;
use crate::state::ServerState;
use cov_base::Memory;
use cov_edit::Command;

/// How many commits of a run come to one sweep.
const COMMITS_A_SWEEP: u32 = 64;

impl Server {
    /// Leaves in the table of the engine what a node that is kept reaches. State and count are as before, at an `Err` too.
    pub(crate) fn sweep(&mut self) -> Result<(), Memory>
        ensures state { self.new.state ≡ self.old.state }
        ensures commits { self.new.commits ≡ self.old.commits }
        ensures swept { OnOk result (IsSwept self.new) }
    {
        self.state.sweep()
    }

    /// Counts a command of this run that the history has, if it is a commit. At an `Err` the server is to be given up.
    pub(crate) fn count(&mut self, is_commit: bool) -> Result<(), Memory>
        requires { self.old.commits < length self.old.state.history }
        ensures state { self.new.state ≡ self.old.state }
        ensures counted { OnOk result (HasCounted is_commit self.old.commits self.new) }
    {
        if is_commit {
            return self.count_commit();
        }
        Ok(())
    }

    // Counts a commit, and sweeps the engine if it is its turn.
    fn count_commit(&mut self) -> Result<(), Memory>
        requires { self.old.commits < length self.old.state.history }
        ensures state { self.new.state ≡ self.old.state }
        ensures commits { self.new.commits ≡ self.old.commits + 1 }
        ensures swept { self.new.commits % 64 ≡ 0 → OnOk result (IsSwept self.new) }
    {
        // That the position fits 32 bits bounds the count for the proof.
        let _most = self.position();
        self.commits += 1;
        if self.commits % COMMITS_A_SWEEP == 0 {
            return self.sweep();
        }
        Ok(())
    }
}

impl ServerState {
    // Leaves in the table of the engine what a node that is kept reaches. The state is as before, at an `Err` too.
    fn sweep(&mut self) -> Result<(), Memory>
        ensures state { self.new.state ≡ self.old.state }
        ensures swept { OnOk result (AreReached self.new.table self.new.nodes) }
    {
        self.engine.sweep()
    }
}

/// Whether a command is a commit.
pub(crate) fn is_commit(command: &Command) -> bool
    ensures { result ≡ is_commit command.now }
{
    matches!(command, Command::Commit { .. })
}
