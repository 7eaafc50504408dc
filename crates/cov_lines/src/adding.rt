// How a command is added: to the history and to the disk, before there is a reply.
ghost use Rattle.std.specs.Prelude.{◌≡◌, ◌⊎◌, ◌<◌, ◌≤◌, length, IfOk, OnOk, IfErr, IfSome};
ghost use Rattle.cov_base.specs.Causes.{Rose};
ghost use Rattle.cov_disk.specs.Images.{LeavesOnly};
ghost use Rattle.cov_lines.specs.Acting.{Changes};
ghost use Rattle.cov_lines.specs.Adding.{HasReceipt, added_as, appended_ending, confirmed};
ghost use Rattle.cov_lines.specs.Storing.{IsNotGrown, gated, grown, stored};
ghost use Rattle.cov_loop.specs.Answers.{StopsAnswer};
ghost use Rattle.cov_loop.specs.Keeping.{AreAll, IsEither};
ghost use Rattle.cov_store.specs.Stands.{IsStored};

use crate::handled::Confirmation;
use crate::server::Server;
use cov_base::{Memory, Name, Text};
use cov_codes::Stop;
use cov_disk::Disk;
use cov_edit::Command;
use cov_engine::Receipt;
use cov_loop::Ending;
use cov_script::{reply_commit, reply_constraint, reply_default, reply_prefer, reply_upgrade};
use cov_session::laws::open_sessions_stay;
use cov_store::{AppendFault, append};
use std::alloc::Global;

impl Server {
    /// Appends a command and stores its record on the disk, unless the history refuses it or memory is wanting; then server and disk are
    /// as before. The session that ends with it, if one does, has ended before the command is installed, so that what its view shared
    /// may be changed in place. At an `Err` the server is to be given up.
    pub(crate) fn append<D: Disk>(
        &mut self,
        command: Command,
        ends: &Option<Name>,
        disk: &mut D,
    ) -> Result<Result<Receipt, Stop>, Ending>
        requires gate { IfSome (D.contents disk.old) (gated self.old.state) }
        ensures changes { IfOk result
            (Changes (appended_ending self.old.state command ends.now)
            self.old.state self.new.state) }
        ensures receipt { IfOk result (λ added.
            IfOk added (HasReceipt self.old.state.history command)) }
        ensures commits { self.new.commits ≡ self.old.commits }
        ensures fewer { IfOk result (λ added.
            OnOk added (self.new.commits < length self.new.state.history)) }
        ensures gate { OnOk result (IfSome (D.contents disk.new) (gated self.new.state)) }
        ensures stored { IfSome (D.contents disk.old) (stored self.old.state) →
            OnOk result (IfSome (D.contents disk.new) (stored self.new.state)) }
        ensures any_moment { AreAll (stored self.old.state) (D.images disk.old) →
            LeavesOnly D.moment D.images_since disk.old disk.new
            (IsEither (stored self.old.state)
            (λ image. IsStored image (grown self.old.state.history command))) }
        ensures durable { AreAll (stored self.old.state) (D.images disk.old) →
            OnOk result (AreAll (stored self.new.state) (D.images disk.new)) }
        ensures unwritten { IsNotGrown self.old.state.history command → disk.new ≡ disk.old }
        ensures settled { AreAll (stored self.old.state) (D.images disk.old) →
            Rose (D.faults disk.old) (D.faults disk.new) ⊎ (disk.new ≡ disk.old)
            ⊎ AreAll (λ image. IsStored image (grown self.old.state.history command))
            (D.images disk.new) }
        ensures stopped { IfErr result (λ ending.
            StopsAnswer ending (D.faults disk.old) (D.faults disk.new)) }
        ensures later { D.faults disk.old ≤ D.faults disk.new }
    {
        open_sessions_stay();
        let state = &mut self.state;
        as_added(append(
            &mut state.engine,
            &mut self.journal,
            disk,
            command,
            &mut state.sessions,
            ends,
        ))
    }
}

// What the appending of a command comes to.
fn as_added(appended: Result<Receipt, AppendFault>) -> Result<Result<Receipt, Stop>, Ending>
    ensures { result ≡ added_as appended }
{
    match appended {
        Ok(receipt) => Ok(Ok(receipt)),
        Err(AppendFault::Refused(refusal)) => Ok(Err(Stop::from(refusal))),
        Err(AppendFault::DiskFault) => Err(Ending::DiskFault),
    }
}

/// The reply to a command that was added.
pub(crate) fn confirm(
    alloc: Global,
    confirmation: Confirmation,
    receipt: &Receipt,
) -> Result<Text, Memory>
    ensures { IfOk result (λ text.
        text ≡ confirmed confirmation receipt.now.number receipt.now.position) }
{
    match confirmation {
        Confirmation::Known(text) => Ok(text),
        Confirmation::Constraint => reply_constraint(alloc, receipt.number),
        Confirmation::Prefer => reply_prefer(alloc, receipt.number),
        Confirmation::Default => reply_default(alloc, receipt.number),
        Confirmation::Upgrade => reply_upgrade(alloc, receipt.number),
        Confirmation::Commit => reply_commit(alloc, receipt.position),
    }
}
