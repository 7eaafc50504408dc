//! Laws of the spelling of commands. Each function does nothing but the last; what it ensures is the law.
ghost use Rattle.std.specs.Prelude.{◌≡◌, IfOk};
ghost use Rattle.cov_record.specs.Laws.{IsRecordOf, OneRecord, OneCommand, OneHistory};

use crate::decode;
use cov_base::{Memory, MemoryOr};
use cov_edit::Command;
use std::alloc::Global;

/// Bytes begin with one command's record at most.
pub fn one_record()
    ensures { OneRecord }
{}

/// Bytes are one command's record at most.
pub fn one_command()
    ensures { OneCommand }
{}

/// Payloads are those of one history at most.
pub fn one_history()
    ensures { OneHistory }
{}

/// Decoding a command's record gives the command back.
pub fn decode_gives_back(alloc: Global, command: &Command, bytes: &[u8]) -> Result<Command, Memory>
    requires { IsRecordOf bytes.now command.now }
    ensures { IfOk result (λ decoded. decoded ≡ command.now) }
{
    match decode(alloc, bytes) {
        Ok(decoded) => Ok(decoded),
        Err(MemoryOr::Memory) => Err(Memory),
        Err(MemoryOr::Refused(_)) => unreachable!(),
    }
}
