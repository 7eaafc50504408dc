// What an import asks of a server, and how its commits are added.
ghost use Rattle.std.specs.Prelude.{◌≡◌, ◌⊎◌, ◌<◌, ◌≤◌, Ok, None, length, IfOk, OnOk, IfErr, IfSome};
ghost use Rattle.cov_base.specs.Causes.{Rose};
ghost use Rattle.cov_cond.specs.Fitting.{imported_at, IsImportFaultOf};
ghost use Rattle.cov_cond_text.specs.Conditional.{HasOptionsBelow};
ghost use Rattle.cov_disk.specs.Images.{LeavesOnly};
ghost use Rattle.cov_edit.specs.History.{option_count, options_of};
ghost use Rattle.cov_history.specs.Verdict.{IsLegal, verdict};
ghost use Rattle.cov_lines.specs.Adding.{StopsCommand, commit_added};
ghost use Rattle.cov_lines.specs.Step.{as_outcome, plainly};
ghost use Rattle.cov_lines.specs.Storing.{IsNotGrown, gated, grown, stored};
ghost use Rattle.cov_lines.specs.Sweeping.{GoesOn};
ghost use Rattle.cov_loop.specs.Answers.{Gives, StopsAnswer};
ghost use Rattle.cov_loop.specs.Keeping.{AreAll, IsEither};
ghost use Rattle.cov_store.specs.Stands.{IsStored};

use crate::handled::{Addition, Confirmation};
use crate::server::Server;
use crate::state::ServerState;
use cov_base::Path;
use cov_codes::Stop;
use cov_cond::{CondText, ImportFault, import};
use cov_disk::Disk;
use cov_edit::{Command, Commands};
use cov_expr::Options;
use cov_loop::{Ending, Reply};

impl Server {
    /// The options of the history. Takes no memory.
    pub fn options(&self) -> &Options
        ensures { result.now.names ≡ options_of self.now.state.history }
    {
        self.state.engine.options()
    }

    /// Does nothing; it tells that the history is legal.
    pub fn history_is_legal(&self)
        ensures { IsLegal self.now.state.history }
    {
        self.state.engine.history_is_legal();
    }

    /// The commits that a conditional text is as a new file at a path, as `cov_cond::import` makes them. None is added.
    pub fn import(&mut self, path: &Path, text: &CondText) -> Result<Commands, ImportFault>
        requires named { 0 < length path.now }
        requires declared { HasOptionsBelow (option_count self.old.state.history) text.now }
        ensures state { self.new.state ≡ self.old.state }
        ensures counted { self.new.commits ≡ self.old.commits }
        ensures commits { IfOk result (λ commits.
            imported_at self.old.state.history path.now text.now ≡ Ok commits.commands) }
        ensures fault { IfErr result (IsImportFaultOf
            (imported_at self.old.state.history path.now text.now)) }
    {
        self.state.import(path, text)
    }

    /// Whether the history would accept a command, or by which code it refuses it. It isn't added. It takes the time of adding it.
    pub fn check(self, command: Command) -> (Server, Result<(), Stop>)
        ensures state { result.0.state ≡ self.state }
        ensures counted { result.0.commits ≡ self.commits }
        ensures accepted { OnOk result.1 (verdict self.state.history command ≡ None) }
        ensures refused { IfErr result.1 (StopsCommand self.state.history command) }
    {
        let Server {
            state,
            journal,
            commits,
        } = self;
        let (state, checked) = state.check(command);
        (
            Server {
                state,
                journal,
                commits,
            },
            checked,
        )
    }

    /// Adds a commit of no session, stores it, counts it, and makes its reply: that to a commit, or the refusal. At an `Err` the server
    /// is to be given up.
    pub fn add_commit<D: Disk>(&mut self, command: Command, disk: &mut D) -> Result<Reply, Ending>
        requires gate { IfSome (D.contents disk.old) (gated self.old.state) }
        ensures gives { IfOk result
            (Gives (as_outcome self.old.state (plainly (commit_added self.old.state command)))
            self.new.state) }
        ensures goes_on { OnOk result (GoesOn self.old self.new) }
        ensures gate { OnOk result (IfSome (D.contents disk.new) (gated self.new.state)) }
        ensures stored { IfSome (D.contents disk.old) (stored self.old.state) →
            OnOk result (IfSome (D.contents disk.new) (stored self.new.state)) }
        ensures any_moment { AreAll (stored self.old.state) (D.images disk.old) →
            LeavesOnly D.moment D.images_since disk.old disk.new
            (IsEither (stored self.old.state)
            (λ image. IsStored image (grown self.old.state.history command))) }
        ensures durable { AreAll (stored self.old.state) (D.images disk.old) →
            OnOk result (AreAll (stored self.new.state) (D.images disk.new)) }
        ensures unwritten { IsNotGrown self.old.state.history command → disk.new ≡ disk.old }
        ensures settled { AreAll (stored self.old.state) (D.images disk.old) →
            Rose (D.faults disk.old) (D.faults disk.new) ⊎ (disk.new ≡ disk.old)
            ⊎ AreAll (λ image. IsStored image (grown self.old.state.history command))
            (D.images disk.new) }
        ensures stopped { IfErr result (λ ending.
            StopsAnswer ending (D.faults disk.old) (D.faults disk.new)) }
        ensures later { D.faults disk.old ≤ D.faults disk.new }
    {
        self.add(
            Addition {
                command,
                ends: None,
                confirmation: Confirmation::Commit,
            },
            disk,
        )
    }
}

impl ServerState {
    // The commits of a conditional text. The state is as before, at an `Err` too.
    fn import(&mut self, path: &Path, text: &CondText) -> Result<Commands, ImportFault>
        requires named { 0 < length path.now }
        requires declared { HasOptionsBelow (option_count self.old.state.history) text.now }
        ensures state { self.new.state ≡ self.old.state }
        ensures commits { IfOk result (λ commits.
            imported_at self.old.state.history path.now text.now ≡ Ok commits.commands) }
        ensures fault { IfErr result (IsImportFaultOf
            (imported_at self.old.state.history path.now text.now)) }
    {
        import(self.alloc, &mut self.engine, path, text)
    }

    // Makes a command ready, and gives it up again.
    #[tactic(auto, using(crate::proofs::Appended::stops_command))]
    fn check(self, command: Command) -> (ServerState, Result<(), Stop>)
        ensures state { result.0.state ≡ self.state }
        ensures accepted { OnOk result.1 (verdict self.state.history command ≡ None) }
        ensures refused { IfErr result.1 (StopsCommand self.state.history command) }
    {
        let ServerState {
            alloc,
            engine,
            sessions,
            trees,
            nearest,
        } = self;
        match engine.prepare(command) {
            Ok(prepared) => {
                let engine = prepared.cancel();
                (
                    ServerState {
                        alloc,
                        engine,
                        sessions,
                        trees,
                        nearest,
                    },
                    Ok(()),
                )
            }
            Err((engine, refusal)) => (
                ServerState {
                    alloc,
                    engine,
                    sessions,
                    trees,
                    nearest,
                },
                Err(Stop::from(refusal)),
            ),
        }
    }
}
