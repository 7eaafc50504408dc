// Commands that are appended to a history and a journal that are lent.
ghost use Rattle.std.specs.Prelude.{◌≡◌, ◌⊎◌, ◌<◌, ◌≤◌, ◌+◌, ◌^◌, ◌++◌, ◌∷◌, [], List, ℕ, None, nat_le, length, IfOk, IfErr, IfSome, OnOk};
ghost use Rattle.cov_base.specs.Causes.{Rose};
ghost use Rattle.cov_dd.specs.Diagrams.{Extends};
ghost use Rattle.cov_disk.specs.Images.{LeavesOnly};
ghost use Rattle.cov_edit.specs.History.{edits_in};
ghost use Rattle.cov_engine.specs.States.{receipt_number};
ghost use Rattle.cov_history.specs.Verdict.{verdict};
ghost use Rattle.cov_journal.specs.Gates.{HasGate};
ghost use Rattle.cov_record.specs.Laws.{IsRecordOf};
ghost use Rattle.cov_store.specs.Appending.{IsAppendFaultOf, LeavesHistory, LeavesHolders, OnRefusal, OnWriteFault};
ghost use Rattle.cov_store.specs.Stands.{IsStored, IsJournalOf, gate_of};

use cov_base::{Failed, Memory, Text};
use cov_disk::Disk;
use cov_edit::Command;
use cov_engine::{Engine, Holders, Receipt, Refusal};
use cov_journal::Journal;
use cov_record::encode;
use std::alloc::Global;

/// Why a command isn't appended to a history that is lent.
#[derive(Clone, Copy)]
pub enum AppendFault {
    /// The history refuses it, or memory is wanting. History and disk are as before.
    Refused(Refusal),
    /// A call of the disk failed. The history has the command, and the disk may lack it: give up history and journal, and open the disk
    /// again.
    DiskFault,
}

/// Appends a command to a history that is lent, and its record to the journal that goes on behind it, as `Store::apply` does. Want of
/// memory and the refusal come before the first write. Of those who hold shares of what the engine keeps, the ones that are named let go
/// once the command is accepted, whether its record gets written or not; where it is refused, none does. It takes the time of
/// `Engine::append`, and of writing the record.
pub fn append<D: Disk, K, H: Holders<K>>(
    engine: &mut Engine,
    journal: &mut Journal,
    disk: &mut D,
    command: Command,
    holders: &mut H,
    which: &K,
) -> Result<Receipt, AppendFault>
    requires journal { IsJournalOf journal.old engine.old.history }
    requires gate { HasGate (D.contents disk.old) (gate_of engine.old.history) }
    ensures history { LeavesHistory engine.old.history command engine.new.history result }
    ensures journal { IsJournalOf journal.new engine.new.history }
    ensures position { IfOk result (λ receipt. receipt.position ≡ length engine.old.history + 1) }
    ensures number { IfOk result
        (λ receipt. receipt.number ≡ receipt_number engine.old.history command) }
    ensures extends { Extends engine.old.table engine.new.table }
    ensures accepted { OnOk result (verdict engine.old.history command ≡ None) }
    ensures refused { IfErr result (IsAppendFaultOf (verdict engine.old.history command)) }
    ensures same { IfErr result (λ fault. OnRefusal fault (disk.new ≡ disk.old)) }
    ensures failed { IfErr result
        (λ fault. OnWriteFault fault (Rose (D.faults disk.old) (D.faults disk.new))) }
    ensures written { IfSome (D.contents disk.old) (λ image. IsStored image engine.old.history) →
        OnOk result (IfSome (D.contents disk.new)
        (λ image. IsStored image (engine.old.history ++ command ∷ []))) }
    ensures gate { OnOk result
        (HasGate (D.contents disk.new) (gate_of (engine.old.history ++ command ∷ []))) }
    ensures stored { ((image : List ℕ) → D.images disk.old image →
        IsStored image engine.old.history) →
        OnOk result ((image : List ℕ) → D.images disk.new image →
        IsStored image (engine.old.history ++ command ∷ [])) }
    ensures any_moment { ((image : List ℕ) → D.images disk.old image →
        IsStored image engine.old.history) →
        LeavesOnly D.moment D.images_since disk.old disk.new
        (λ image. IsStored image engine.old.history
        ⊎ IsStored image (engine.old.history ++ command ∷ [])) }
    ensures later { D.faults disk.old ≤ D.faults disk.new }
    ensures holders { LeavesHolders (H.released which.now) holders.old holders.new result }
{
    engine.history_is_legal();
    match make_record(engine.table().allocator(), journal, &command) {
        Ok(payload) => match engine.append_releasing(command, holders, which) {
            Ok(receipt) => match journal.extend(disk, payload.as_slice()) {
                Ok(()) => Ok(receipt),
                Err(Failed) => Err(AppendFault::DiskFault),
            },
            Err(refusal) => Err(AppendFault::Refused(refusal)),
        },
        Err(Memory) => {
            lose(command);
            Err(AppendFault::Refused(Refusal::Memory))
        }
    }
}

// Makes the record of a command, and the room for it. The numbers of a record have 32 bits, so there is none of so many edits or bytes.
fn make_record(alloc: Global, journal: &mut Journal, command: &Command) -> Result<Text, Memory>
    ensures record { IfOk result (λ payload. IsRecordOf payload command.now) }
    ensures room { IfOk result (λ payload. length payload + 37 ≤ journal.new.spare) }
    ensures at { journal.new.at ≡ journal.old.at }
    ensures digest { journal.new.digest ≡ journal.old.digest }
{
    if has_many_edits(command) {
        return Err(Memory);
    }
    let payload = encode(alloc, command)?;
    if payload.len() > u32::MAX as usize {
        return Err(Memory);
    }
    journal.reserve(payload.len() as u32)?;
    Ok(payload)
}

// Whether the count of a command's edits has more than 32 bits.
fn has_many_edits(command: &Command) -> bool
    ensures { result ≡ nat_le (2 ^ 32) (length (edits_in command.now)) }
{
    match command {
        Command::Commit { edits, .. } => edits.len() >= 1 << 32,
        Command::Option { .. }
        | Command::Constraint { .. }
        | Command::Prefer { .. }
        | Command::Default { .. }
        | Command::Upgrade => false,
    }
}

// Drops a command, here alone.
fn lose(_command: Command) {}
