// The lines that end a run: how many records a store has, which script was served, why a text isn't taken in, and why a store can't be
// opened.
ghost use Rattle.std.specs.Prelude.{◌≡◌, ◌≢◌, ◌≤◌, ◌++◌, List, ℕ, IfOk, OnOk, codes, length};
ghost use Rattle.cov_edit.specs.declared.command.Command.{Command};
ghost use Rattle.cov_script.specs.Replies.{code_text, IsCodeOf};
ghost use Rattle.cov_codes.specs.Codes.{refusal_code};
ghost use Rattle.cov_serve.specs.Program.{cause_text, check_line, damaged_line, demo_line, taken_line, DamageCanBeTold, IsCauseOf, IsLineOf, PutsLast, StopCanBeTold, TellsFault};
ghost use Rattle.cov_serve.specs.declared.status.Status.TheVariants.{Damaged, WriteFault};

use crate::status::Status;
use cov_base::{Failed, Memory, Position, Text};
use cov_codes::Stop;
use cov_engine::Refusal;
use cov_expr::Options;
use cov_io::Sink;
use cov_script::{code_text, reply_refused};
use cov_store::{StoreDamage, StoreFault};
use std::alloc::Global;

/// The line that tells that a disk holds no store.
pub(crate) const NOT_A_STORE: &[u8] = b"not-a-store\n";

/// Tells why a store isn't opened: in one line, which is put, or by the status alone.
pub(crate) fn tell_fault<K: Sink>(alloc: Global, fault: StoreFault, out: &mut K) -> Status
    requires { DamageCanBeTold fault }
    ensures told { TellsFault fault (K.written out.old) (K.written out.new)
        (K.faults out.old) (K.faults out.new) result }
    ensures later { K.faults out.old ≤ K.faults out.new }
{
    match fault {
        StoreFault::NotAStore => put_last(NOT_A_STORE, Status::NotAStore, out),
        StoreFault::Damaged {
            number,
            cause,
            options,
        } => tell_damage(alloc, number, cause, &options, out),
        StoreFault::DiskFault => Status::DiskFault,
        StoreFault::Memory => Status::NoMemory,
    }
}

/// Tells which record is damaged, and how. The options are those that the records before it declare.
pub(crate) fn tell_damage<K: Sink>(
    alloc: Global,
    number: u32,
    cause: StoreDamage,
    options: &Options,
    out: &mut K,
) -> Status
    requires { IsCauseOf (length options.now.names) cause }
    ensures told { PutsLast (Damaged number cause) (damaged_line options.now.names number cause)
        (K.written out.old) (K.written out.new) (K.faults out.old) (K.faults out.new) result }
    ensures later { K.faults out.old ≤ K.faults out.new }
{
    match damaged_line(alloc, options, number, &cause) {
        Ok(line) => put_last(line.as_slice(), Status::Damaged { number, cause }, out),
        Err(Memory) => Status::NoMemory,
    }
}

/// Puts the last line of a run, which ends with a status.
pub(crate) fn put_last<K: Sink>(line: &[u8], status: Status, out: &mut K) -> Status
    requires { status ≢ WriteFault }
    ensures puts { PutsLast status line.now (K.written out.old) (K.written out.new)
        (K.faults out.old) (K.faults out.new) result }
    ensures later { K.faults out.old ≤ K.faults out.new }
{
    match out.put(line) {
        Ok(()) => status,
        Err(Failed) => Status::WriteFault,
    }
}

/// The line that tells a refusal, unless memory is wanting.
pub(crate) fn refused_line(alloc: Global, options: &Options, stop: &Stop) -> Result<Text, Memory>
    requires { StopCanBeTold (length options.now.names) stop.now }
    ensures { IfOk result (IsLineOf options.now.names stop.now) }
{
    match stop {
        Stop::Refused(code) => reply_refused(alloc, options, code),
        Stop::Memory => Err(Memory),
    }
}

/// The line that tells how many records a store has.
pub(crate) fn check_line(alloc: Global, count: Position) -> Result<Text, Memory>
    ensures { (history : List Command) → count ≡ length history →
        IfOk result (λ line. line ≡ check_line history) }
{
    let count = count.number();
    Ok(Text::from(format!(in alloc; "ok {count} records\n")?))
}

/// The line that tells how many records were taken of a journal's bytes.
pub(crate) fn taken_line(alloc: Global, count: Position) -> Result<Text, Memory>
    ensures { (history : List Command) → count ≡ length history →
        IfOk result (λ line. line ≡ taken_line history) }
{
    let count = count.number();
    Ok(Text::from(format!(in alloc; "ok replica {count}\n")?))
}

/// The line that tells that the script was served that a number stands for.
pub(crate) fn demo_line(alloc: Global, number: u64) -> Result<Text, Memory>
    ensures { IfOk result (λ line. line ≡ demo_line number) }
{
    Ok(Text::from(format!(in alloc; "ok demo {number}\n")?))
}

// The line that tells which record is damaged, and how.
fn damaged_line(
    alloc: Global,
    options: &Options,
    number: u32,
    cause: &StoreDamage,
) -> Result<Text, Memory>
    requires { IsCauseOf (length options.now.names) cause.now }
    ensures { IfOk result (λ line. line ≡ damaged_line options.now.names number cause.now) }
{
    let mut line = Text::from(format!(in alloc; "damaged {number} ")?);
    append_cause(alloc, &mut line, options, cause)?;
    line.append(b"\n")?;
    Ok(line)
}

fn append_cause(
    alloc: Global,
    line: &mut Text,
    options: &Options,
    cause: &StoreDamage,
) -> Result<(), Memory>
    requires { IsCauseOf (length options.now.names) cause.now }
    ensures { OnOk result (line.new ≡ line.old ++ cause_text options.now.names cause.now) }
{
    match cause {
        StoreDamage::Cut => line.append(b"cut"),
        StoreDamage::Digest => line.append(b"digest"),
        StoreDamage::NotARecord => line.append(b"record"),
        StoreDamage::Refused(refusal) => append_refusal(alloc, line, options, *refusal),
    }
}

fn append_refusal(
    alloc: Global,
    line: &mut Text,
    options: &Options,
    refusal: Refusal,
) -> Result<(), Memory>
    requires { IsCodeOf (length options.now.names) (refusal_code refusal) }
    ensures { OnOk result (line.new ≡
        line.old ++ (codes "refused " ++ code_text options.now.names (refusal_code refusal))) }
{
    match Stop::from(refusal) {
        Stop::Refused(code) => {
            let words = code_text(alloc, options, &code)?;
            line.append(b"refused ")?;
            line.append(words.as_slice())
        }
        Stop::Memory => Err(Memory),
    }
}
