// A whole record behind a history.
ghost use Rattle.std.specs.Prelude.{◌≡◌, IfOk};
ghost use Rattle.cov_history.specs.Verdict.{verdict};
ghost use Rattle.cov_replica.specs.Accepting.{Accepts, refusal_damage};
ghost use Rattle.cov_replica.specs.Taken.{command_in, judged, by_command, by_verdict};

use crate::ReplicaDamage;
use cov_base::MemoryOr;
use cov_edit::Command;
use cov_engine::{Engine, Refusal};
use cov_journal::next_digest;
use cov_record::decode;

/// Appends the command of a record to a history, unless the record is damaged, and answers the record's digest. The digest before it is
/// that of the history's last record.
pub(crate) fn accept(
    engine: &mut Engine,
    before: &[u8; 32],
    payload: &[u8],
    digest: &[u8],
) -> Result<[u8; 32], MemoryOr<ReplicaDamage>>
    ensures accepted { Accepts (judged engine.old.history before.now
        (record { payload = payload.now; digest = digest.now }))
        engine.old.history engine.new.history result }
    ensures digest { IfOk result (λ own. own ≡ digest.now) }
{
    let own = next_digest(before, payload);
    if digest != own.as_slice() {
        return Err(MemoryOr::Refused(ReplicaDamage::Digest));
    }
    match accept_payload(engine, payload) {
        Ok(()) => Ok(own),
        Err(fault) => Err(fault),
    }
}

// Appends the command that a payload spells.
fn accept_payload(engine: &mut Engine, payload: &[u8]) -> Result<(), MemoryOr<ReplicaDamage>>
    ensures { Accepts (by_command engine.old.history (command_in payload.now))
        engine.old.history engine.new.history result }
{
    let alloc = engine.table().allocator();
    match decode(alloc, payload) {
        Ok(command) => accept_command(engine, command),
        Err(MemoryOr::Refused(_)) => Err(MemoryOr::Refused(ReplicaDamage::NotARecord)),
        Err(MemoryOr::Memory) => Err(MemoryOr::Memory),
    }
}

// Appends a command that the history accepts.
fn accept_command(engine: &mut Engine, command: Command) -> Result<(), MemoryOr<ReplicaDamage>>
    ensures { Accepts (by_verdict command (verdict engine.old.history command))
        engine.old.history engine.new.history result }
{
    match engine.append(command) {
        Ok(_) => Ok(()),
        Err(refusal) => Err(refusal_damage(refusal)),
    }
}

// A refusal is damage, but want of memory is none.
fn refusal_damage(refusal: Refusal) -> MemoryOr<ReplicaDamage>
    ensures { result ≡ refusal_damage refusal }
{
    match refusal {
        Refusal::Memory => MemoryOr::Memory,
        refusal => MemoryOr::Refused(ReplicaDamage::Refused(refusal)),
    }
}
