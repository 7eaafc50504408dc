// The commands of a journal's records, each accepted after those before it.
ghost use Rattle.std.specs.Prelude.{◌≡◌, ◌≤◌, [], List, ℕ, IfErr, IfOk, OnOk};
ghost use Rattle.cov_journal.specs.Moments.{KeepsImages};
ghost use Rattle.cov_record.specs.Laws.{IsRecordOf};
ghost use Rattle.cov_store.specs.Opening.{HasReason, IsOfVerdict};
ghost use Rattle.cov_store.specs.declared.replaying.Halt.TheVariants.{Damaged};
ghost use Rattle.cov_store.specs.Replaying.{StandsBehind, IsAccepted, IsUnread, IsHeld, IsFaultOf, HaltsFor, HaltsBy, Steps, Replays, as_halt, as_refused, as_store_damage};

use crate::{Store, StoreDamage, StoreFault};
use cov_base::{Memory, MemoryOr, Text};
use cov_disk::Disk;
use cov_edit::Command;
use cov_engine::{Engine, Refusal};
use cov_journal::{Damage, Journal, Next, ReadRecordFault, Reader};
use cov_record::decode;
use std::alloc::Global;

/// Why no further command is accepted.
#[derive(Clone, Copy)]
pub(crate) enum Halt {
    /// The record behind the history is damaged.
    Damaged(StoreDamage),
    /// A call of the disk failed.
    DiskFault,
    /// No memory was to be had.
    Memory,
}

/// What a step came to.
#[derive(Drop)]
pub(crate) enum Step {
    /// The command of one record more is accepted, and the reader stands behind it.
    On(Reader),
    /// None is left.
    End(Journal),
}

/// Accepts the command of one record after another, from the empty history to the end of the journal or to the first that is damaged.
pub(crate) fn replay_all<D: Disk>(
    alloc: Global,
    disk: &mut D,
    reader: Reader,
) -> Result<Store, StoreFault>
    requires behind { StandsBehind (D.contents disk.old) reader [] }
    ensures replays { Replays (D.contents disk.old) result }
    ensures reason { IfErr result (HasReason (D.faults disk.old) (D.faults disk.new)) }
    ensures verdict { IfErr result IsOfVerdict }
    ensures same { D.contents disk.new ≡ D.contents disk.old }
    ensures images { KeepsImages D.images D.moment D.images_since disk.old disk.new }
    ensures later { D.faults disk.old ≤ D.faults disk.new }
{
    let mut engine = match Engine::new(alloc) {
        Ok(engine) => engine,
        Err(Memory) => return Err(StoreFault::Memory),
    };
    match accept_all(alloc, &mut engine, disk, reader) {
        Ok(journal) => Ok(Store { engine, journal }),
        Err(halt) => Err(fault_of(engine, halt)),
    }
}

// Accepts the commands of all records behind a history.
fn accept_all<D: Disk>(
    alloc: Global,
    engine: &mut Engine,
    disk: &mut D,
    reader: Reader,
) -> Result<Journal, Halt>
    requires behind { StandsBehind (D.contents disk.old) reader engine.old.history }
    ensures held { IfOk result (IsHeld (D.contents disk.old) engine.new.history) }
    ensures halts { IfErr result (HaltsFor (D.contents disk.old) engine.new.history) }
    ensures reason { IfErr result (HaltsBy (D.faults disk.old) (D.faults disk.new)) }
    ensures same { D.contents disk.new ≡ D.contents disk.old }
    ensures images { KeepsImages D.images D.moment D.images_since disk.old disk.new }
    ensures later { D.faults disk.old ≤ D.faults disk.new }
{
    let mut reader = reader;
    'records: loop {
        match accept_next(alloc, engine, disk, reader) {
            Ok(Step::On(next)) => reader = next,
            Ok(Step::End(journal)) => return Ok(journal),
            Err(halt) => return Err(halt),
        }
    }
}

// Accepts the command of the next record, if there is one.
fn accept_next<D: Disk>(
    alloc: Global,
    engine: &mut Engine,
    disk: &mut D,
    reader: Reader,
) -> Result<Step, Halt>
    requires behind { StandsBehind (D.contents disk.old) reader engine.old.history }
    ensures steps { IfOk result
        (Steps (D.contents disk.old) engine.old.history engine.new.history) }
    ensures halts { IfErr result (HaltsFor (D.contents disk.old) engine.new.history) }
    ensures reason { IfErr result (HaltsBy (D.faults disk.old) (D.faults disk.new)) }
    ensures same { D.contents disk.new ≡ D.contents disk.old }
    ensures images { KeepsImages D.images D.moment D.images_since disk.old disk.new }
    ensures later { D.faults disk.old ≤ D.faults disk.new }
{
    match reader.next(disk) {
        Ok(Next::Record(next, payload)) => match read(alloc, engine, payload.as_slice()) {
            Ok(()) => Ok(Step::On(next)),
            Err(halt) => Err(halt),
        },
        Ok(Next::End(journal)) => Ok(Step::End(journal)),
        Err(fault) => Err(as_halt(fault)),
    }
}

// Accepts the command of a payload.
fn read(alloc: Global, engine: &mut Engine, payload: &[u8]) -> Result<(), Halt>
    ensures accepted { OnOk result (IsAccepted engine.old.history payload.now engine.new.history) }
    ensures unread { IfErr result (IsUnread engine.old.history payload.now) }
    ensures same { IfErr result (λ _. engine.new.history ≡ engine.old.history) }
{
    match decode(alloc, payload) {
        Ok(command) => accept(engine, command),
        Err(MemoryOr::Refused(_)) => Err(Halt::Damaged(StoreDamage::NotARecord)),
        Err(MemoryOr::Memory) => Err(Halt::Memory),
    }
}

// Accepts a command, or tells its refusal.
fn accept(engine: &mut Engine, command: Command) -> Result<(), Halt>
    ensures accepted { (payload : List ℕ) → IsRecordOf payload command →
        OnOk result (IsAccepted engine.old.history payload engine.new.history) }
    ensures unread { (payload : List ℕ) → IsRecordOf payload command →
        IfErr result (IsUnread engine.old.history payload) }
    ensures same { IfErr result (λ _. engine.new.history ≡ engine.old.history) }
{
    match engine.append(command) {
        Ok(_) => Ok(()),
        Err(refusal) => Err(as_refused(refusal)),
    }
}

// A command that is refused is damage, but want of memory is none.
fn as_refused(refusal: Refusal) -> Halt
    ensures { result ≡ as_refused refusal }
{
    match refusal {
        Refusal::Memory => Halt::Memory,
        refusal => Halt::Damaged(StoreDamage::Refused(refusal)),
    }
}

// Why no record was given.
fn as_halt(fault: ReadRecordFault) -> Halt
    ensures { result ≡ as_halt fault }
{
    match fault {
        ReadRecordFault::Damaged { cause, .. } => Halt::Damaged(as_store_damage(cause)),
        ReadRecordFault::DiskFault => Halt::DiskFault,
        ReadRecordFault::Memory => Halt::Memory,
    }
}

fn as_store_damage(damage: Damage) -> StoreDamage
    ensures { result ≡ as_store_damage damage }
{
    match damage {
        Damage::Cut => StoreDamage::Cut,
        Damage::Digest => StoreDamage::Digest,
    }
}

// Why a disk can't be opened, whose records before have this history.
fn fault_of(engine: Engine, halt: Halt) -> StoreFault
    ensures { IsFaultOf engine.history halt result }
{
    match halt {
        Halt::Damaged(cause) => damaged(engine, cause),
        Halt::DiskFault => {
            close(engine);
            StoreFault::DiskFault
        }
        Halt::Memory => {
            close(engine);
            StoreFault::Memory
        }
    }
}

// The record behind the history is damaged.
fn damaged(engine: Engine, cause: StoreDamage) -> StoreFault
    ensures { IsFaultOf engine.history (Damaged cause) result }
{
    // So there are few enough to count one more.
    engine.history_is_legal();
    let number = engine.position().number() + 1;
    StoreFault::Damaged {
        number,
        cause,
        options: engine.into_options(),
    }
}

/// Drops a history, here alone.
pub(crate) fn close(_engine: Engine) {}
