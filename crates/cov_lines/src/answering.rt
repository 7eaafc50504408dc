// How a line is answered: what it adds is stored before there is a reply.
ghost use Rattle.std.specs.Prelude.{◌≡◌, ◌⊎◌, ◌<◌, ◌≤◌, ℕ, length, IfOk, OnOk, IfErr, IfSome};
ghost use Rattle.cov_base.specs.Causes.{Rose};
ghost use Rattle.cov_disk.specs.Images.{LeavesOnly};
ghost use Rattle.cov_edit.specs.History.{option_count};
ghost use Rattle.cov_lines.specs.Acting.{CanBeTold, Handles, IsPlain, Refuses};
ghost use Rattle.cov_lines.specs.Adding.{command_added, confirmed};
ghost use Rattle.cov_lines.specs.Step.{acted, as_outcome, plainly, refused};
ghost use Rattle.cov_lines.specs.Storing.{IsNotGrown, gated, grown, stored};
ghost use Rattle.cov_lines.specs.Sweeping.{GoesOn, HasCounted};
ghost use Rattle.cov_loop.specs.Answers.{Gives, StopsAnswer};
ghost use Rattle.cov_loop.specs.Keeping.{AreAll, IsEither};
ghost use Rattle.cov_script.specs.Replies.{IsCodeOf};
ghost use Rattle.cov_store.specs.Stands.{IsStored};

use crate::adding::confirm;
use crate::handled::{Addition, Confirmation, Handled};
use crate::server::Server;
use crate::sweeping::is_commit;
use cov_base::Memory;
use cov_codes::Stop;
use cov_disk::Disk;
use cov_engine::Receipt;
use cov_loop::{Ending, LineServer, Reply};
use cov_script::Code;
use std::alloc::Global;

impl LineServer for Server {
    ghost use Rattle.cov_lines.specs.Growth.{commands_told, counts_rise, stored_told};
    ghost use Rattle.cov_lines.specs.Laws.{long_kept, silent_kept, refusal_told, refused_kept, rows_told};
    ghost use Rattle.cov_lines.specs.States.{State};
    ghost use Rattle.cov_lines.specs.Step.{step};
    ghost use Rattle.cov_lines.specs.Sweeping.{GoesOn, goes_on_same};
    ghost use Rattle.cov_lines.specs.Storing.{count, gated, stored};

    ghost State = { State };

    ghost state_of = { λ s. s.state };

    ghost step = { step };

    ghost stored = { stored };

    ghost gate = { gated };

    ghost count = { count };

    ghost goes_on = { GoesOn };

    fn answer<D: Disk>(&mut self, line: &[u8], disk: &mut D) -> Result<Reply, Ending> {
        match self.act(line) {
            Ok(Handled::Done(reply)) => Ok(reply),
            Ok(Handled::Adds(addition)) => self.add(addition, disk),
            Err(Stop::Refused(code)) => self.refuse(&code),
            Err(Stop::Memory) => Err(Ending::NoMemory),
        }
    }

    fn answer_long(&mut self) -> Result<Reply, Memory> {
        self.state.refuse(&Code::Long)
    }

    ghost refusal_told = { refusal_told };

    ghost refused_kept = { refused_kept };

    ghost rows_told = { rows_told };

    ghost long_kept = { long_kept };

    ghost silent_kept = { silent_kept };

    ghost commands_told = { commands_told };

    ghost stored_told = { stored_told };

    ghost counts_rise = { counts_rise };

    ghost goes_on_same = { goes_on_same };
}

impl Server {
    // Does what a line says, or makes the command that it adds.
    fn act(&mut self, line: &[u8]) -> Result<Handled, Stop>
        ensures handles { Handles (acted self.old.state line.now)
            self.old.state self.new.state result }
        ensures commits { self.new.commits ≡ self.old.commits }
    {
        self.state.act(line)
    }

    // Adds a command, with which the session ends that is to, counts it if it is a commit, and makes the reply.
    pub(crate) fn add<D: Disk>(&mut self, addition: Addition, disk: &mut D) -> Result<Reply, Ending>
        requires gate { IfSome (D.contents disk.old) (gated self.old.state) }
        ensures gives { IfOk result
            (Gives (as_outcome self.old.state (plainly (command_added self.old.state addition)))
            self.new.state) }
        ensures goes_on { OnOk result (GoesOn self.old self.new) }
        ensures gate { OnOk result (IfSome (D.contents disk.new) (gated self.new.state)) }
        ensures stored { IfSome (D.contents disk.old) (stored self.old.state) →
            OnOk result (IfSome (D.contents disk.new) (stored self.new.state)) }
        ensures any_moment { AreAll (stored self.old.state) (D.images disk.old) →
            LeavesOnly D.moment D.images_since disk.old disk.new
            (IsEither (stored self.old.state)
            (λ image. IsStored image (grown self.old.state.history addition.command))) }
        ensures durable { AreAll (stored self.old.state) (D.images disk.old) →
            OnOk result (AreAll (stored self.new.state) (D.images disk.new)) }
        ensures unwritten { IsNotGrown self.old.state.history addition.command →
            disk.new ≡ disk.old }
        ensures settled { AreAll (stored self.old.state) (D.images disk.old) →
            Rose (D.faults disk.old) (D.faults disk.new) ⊎ (disk.new ≡ disk.old)
            ⊎ AreAll (λ image. IsStored image (grown self.old.state.history addition.command))
            (D.images disk.new) }
        ensures stopped { IfErr result (λ ending.
            StopsAnswer ending (D.faults disk.old) (D.faults disk.new)) }
        ensures later { D.faults disk.old ≤ D.faults disk.new }
    {
        let Addition {
            command,
            ends,
            confirmation,
        } = addition;
        let is_commit = is_commit(&command);
        match self.append(command, &ends, disk) {
            Ok(added) => match added {
                Ok(receipt) => self.finish(is_commit, confirmation, &receipt),
                Err(stop) => self.stop(&stop),
            },
            Err(ending) => Err(ending),
        }
    }

    // Counts a command that was appended, if it is a commit, and makes the reply.
    fn finish(
        &mut self,
        is_commit: bool,
        confirmation: Confirmation,
        receipt: &Receipt,
    ) -> Result<Reply, Ending>
        requires { self.old.commits < length self.old.state.history }
        ensures state { self.new.state ≡ self.old.state }
        ensures counted { OnOk result (HasCounted is_commit self.old.commits self.new) }
        ensures gives { IfOk result
            (IsPlain (confirmed confirmation receipt.now.number receipt.now.position)) }
        ensures stopped { (disk disk' : ℕ) →
            IfErr result (λ ending. StopsAnswer ending disk disk') }
    {
        match self.count(is_commit) {
            Ok(()) => confirmed(self.state.alloc, confirmation, receipt),
            Err(Memory) => Err(Ending::NoMemory),
        }
    }

    // Refuses a command that isn't added, or ends the run where memory is wanting.
    fn stop(&self, stop: &Stop) -> Result<Reply, Ending>
        requires { CanBeTold self.now.state stop.now }
        ensures gives { Refuses self.now.state stop.now result }
        ensures stopped { (disk disk' : ℕ) →
            IfErr result (λ ending. StopsAnswer ending disk disk') }
    {
        match stop {
            Stop::Refused(code) => self.refuse(code),
            Stop::Memory => Err(Ending::NoMemory),
        }
    }

    // Refuses a line.
    fn refuse(&self, code: &Code) -> Result<Reply, Ending>
        requires { IsCodeOf (option_count self.now.state.history) code.now }
        ensures gives { IfOk result (Gives (refused self.now.state code.now) self.now.state) }
        ensures stopped { (disk disk' : ℕ) →
            IfErr result (λ ending. StopsAnswer ending disk disk') }
    {
        match self.state.refuse(code) {
            Ok(reply) => Ok(reply),
            Err(Memory) => Err(Ending::NoMemory),
        }
    }
}

// The reply that confirms a command, unless memory is wanting.
fn confirmed(alloc: Global, confirmation: Confirmation, receipt: &Receipt) -> Result<Reply, Ending>
    ensures gives { IfOk result
        (IsPlain (confirmed confirmation receipt.now.number receipt.now.position)) }
    ensures stopped { (disk disk' : ℕ) →
        IfErr result (λ ending. StopsAnswer ending disk disk') }
{
    match confirm(alloc, confirmation, receipt) {
        Ok(text) => Ok(Reply::to_done(alloc, text)),
        Err(Memory) => Err(Ending::NoMemory),
    }
}
