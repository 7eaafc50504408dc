// A line over the history of a journal's bytes, which are read to their end first.
ghost use Rattle.std.specs.Prelude.{◌≡◌, ◌⊎◌, ◌≤◌, ◌++◌, true, List, ℕ, Option, Some, IfOk};
ghost use Rattle.cov_edit.specs.declared.command.Command.{Command};
ghost use Rattle.cov_io.specs.Progress.{CountsGiven};
ghost use Rattle.cov_lines.specs.States.{State, starting};
ghost use Rattle.cov_lines.specs.Step.{step};
ghost use Rattle.cov_loop.specs.Answers.{Gives};
ghost use Rattle.cov_loop.specs.Counts.{counts};
ghost use Rattle.cov_loop.specs.Turns.{WritesFront};
ghost use Rattle.cov_out.specs.declared.row.OutRow.{OutRow};
ghost use Rattle.cov_replica.specs.Laws.{as_store_damage};
ghost use Rattle.cov_replica.specs.Taken.{taken};
ghost use Rattle.cov_script.specs.Readers.{reads_variant};
ghost use Rattle.cov_serve.specs.Jobs.{EndsAs, IsCaused, IsShort, NoneRose, OnEnd, RowsPrecede, answered_replica, faulty_replica, replica_by, replies, rows_of, served_replica};
ghost use Rattle.cov_serve.specs.Program.{taken_line};
ghost use Rattle.cov_serve.specs.Replicas.{Puts, PutsAnswer};
ghost use Rattle.cov_serve.specs.Statuses.{answered_status};
ghost use Rattle.cov_serve.specs.declared.job.Job.TheVariants.{Replica as replica};
ghost use Rattle.cov_serve.specs.declared.status.Status.TheVariants.{NoMemory as wanting};

use crate::journal_source::{close, read_journal};
use crate::last_line::{NOT_A_STORE, put_last, taken_line, tell_damage};
use crate::status::Status;
use cov_base::{Failed, Memory, Text};
use cov_engine::Engine;
use cov_io::{Sink, Source};
use cov_lines::VariantReader;
use cov_loop::{Answer, Reply, put_reply};
use cov_out::Trees;
use cov_replica::{Replica, ReplicaDamage, ReplicaFault};
use cov_store::StoreDamage;
use std::alloc::Global;

/// Reads a source to its end as the bytes of a journal, tells how many records were taken of them, and serves a line that reads a variant of
/// their history; or tells in one line what is wrong with the bytes.
pub(crate) fn serve_replica<S: Source, K: Sink, T: Trees>(
    alloc: Global,
    line: &[u8],
    script: &mut S,
    out: &mut K,
    trees: &mut T,
) -> Status
    requires { reads_variant line.now ≡ true }
    ensures ends { (history : List Command) (text : List ℕ) → S.left script.old ≡ Some text →
        OnEnd result (EndsAs (served_replica line.now text history) result (S.left script.new)) }
    ensures front { (history : List Command) (text before : List ℕ) →
        S.left script.old ≡ Some text → K.written out.old ≡ Some before →
        WritesFront before (replies (served_replica line.now text history).turns)
        (K.written out.new) }
    ensures whole { (history : List Command) (text before : List ℕ) →
        S.left script.old ≡ Some text → K.written out.old ≡ Some before →
        OnEnd result (K.written out.new ≡
        Some (before ++ replies (served_replica line.now text history).turns)) }
    ensures rows { (history : List Command) (text : List ℕ) (before : List OutRow) →
        S.left script.old ≡ Some text → T.rows trees.old ≡ Some before →
        WritesFront before (rows_of (served_replica line.now text history).turns)
        (T.rows trees.new) }
    ensures rows_whole { (history : List Command) (text : List ℕ) (before : List OutRow) →
        S.left script.old ≡ Some text → T.rows trees.old ≡ Some before →
        OnEnd result (T.rows trees.new ≡
        Some (before ++ rows_of (served_replica line.now text history).turns)) }
    ensures rows_first { (history : List Command) (text before : List ℕ) (rows : List OutRow) →
        S.left script.old ≡ Some text →
        K.written out.old ≡ Some before → T.rows trees.old ≡ Some rows →
        RowsPrecede (served_replica line.now text history).turns before rows
        (K.written out.new) (T.rows trees.new) }
    ensures cause { (contents : Option (List ℕ)) (disk : ℕ) →
        IsCaused (replica line.now) contents (S.left script.old)
        (counts (S.faults script.old) (K.faults out.old) disk (T.faults trees.old)
        (S.given script.old) (S.ends script.old))
        (counts (S.faults script.new) (K.faults out.new) disk (T.faults trees.new)
        (S.given script.new) (S.ends script.new)) result }
    ensures complete { (history : List Command) (text : List ℕ) (disk : ℕ) →
        S.left script.old ≡ Some text →
        IsShort true (S.left script.old) →
        NoneRose (replica line.now) (served_replica line.now text history)
        (counts (S.faults script.old) (K.faults out.old) disk (T.faults trees.old)
        (S.given script.old) (S.ends script.old))
        (counts (S.faults script.new) (K.faults out.new) disk (T.faults trees.new)
        (S.given script.new) (S.ends script.new)) →
        (result ≡ (served_replica line.now text history).status) ⊎ (result ≡ wanting) }
    ensures left { CountsGiven (S.left script.old) (S.left script.new)
        (S.given script.old) (S.given script.new) }
    ensures source_later { S.faults script.old ≤ S.faults script.new }
    ensures later { K.faults out.old ≤ K.faults out.new }
    ensures trees_later { T.faults trees.old ≤ T.faults trees.new }
{
    match read_journal(alloc, script) {
        Ok(fed) => tell_taken(alloc, fed, line, out, trees),
        Err(fault) => Status::from(fault),
    }
}

// Serves a line over the history of the bytes that a replica has taken, or tells what is wrong with them.
fn tell_taken<K: Sink, T: Trees>(
    alloc: Global,
    fed: Replica,
    line: &[u8],
    out: &mut K,
    trees: &mut T,
) -> Status
    requires { reads_variant line.now ≡ true }
    ensures puts { (history : List Command) → Puts
        (replica_by line.now (taken fed).history (taken fed).fault history)
        (K.written out.old) (K.written out.new) (T.rows trees.old) (T.rows trees.new)
        (K.faults out.old) (K.faults out.new) (T.faults trees.old) (T.faults trees.new) result }
    ensures later { K.faults out.old ≤ K.faults out.new }
    ensures trees_later { T.faults trees.old ≤ T.faults trees.new }
{
    match fed.fault() {
        None => serve_line(alloc, fed.into_engine(), line, out, trees),
        Some(fault) => {
            let status = put_fault(alloc, &fed, fault, out);
            close(fed);
            status
        }
    }
}

// Tells what is wrong with the bytes that a replica has taken.
fn put_fault<K: Sink>(alloc: Global, fed: &Replica, fault: ReplicaFault, out: &mut K) -> Status
    requires { (taken fed.now).fault ≡ Some fault }
    ensures puts { (history : List Command) (rows : Option (List OutRow)) (failed : ℕ) → Puts
        (faulty_replica (taken fed.now).history fault history)
        (K.written out.old) (K.written out.new) rows rows
        (K.faults out.old) (K.faults out.new) failed failed result }
    ensures later { K.faults out.old ≤ K.faults out.new }
{
    match fault {
        ReplicaFault::NotAStore => put_last(NOT_A_STORE, Status::NotAStore, out),
        ReplicaFault::Damaged { number, cause } => tell_damage(
            alloc,
            number,
            as_store_damage(cause),
            fed.engine().options(),
            out,
        ),
        ReplicaFault::Memory { .. } => Status::NoMemory,
    }
}

// The damage of a store that has the same bytes.
fn as_store_damage(cause: ReplicaDamage) -> StoreDamage
    ensures { result ≡ as_store_damage cause }
{
    match cause {
        ReplicaDamage::Digest => StoreDamage::Digest,
        ReplicaDamage::NotARecord => StoreDamage::NotARecord,
        ReplicaDamage::Refused(refusal) => StoreDamage::Refused(refusal),
    }
}

// Tells how many commands a history has, and serves a line over it.
fn serve_line<K: Sink, T: Trees>(
    alloc: Global,
    engine: Engine,
    line: &[u8],
    out: &mut K,
    trees: &mut T,
) -> Status
    requires { reads_variant line.now ≡ true }
    ensures puts { (history : List Command) → Puts
        (answered_replica line.now engine.history history)
        (K.written out.old) (K.written out.new) (T.rows trees.old) (T.rows trees.new)
        (K.faults out.old) (K.faults out.new) (T.faults trees.old) (T.faults trees.new) result }
    ensures later { K.faults out.old ≤ K.faults out.new }
    ensures trees_later { T.faults trees.old ≤ T.faults trees.new }
{
    let told = taken_line(alloc, engine.position());
    let mut reader = VariantReader::new(alloc, engine);
    let status = put_both(&told, &mut reader, line, out, trees);
    reader.close();
    status
}

// Puts a first line, and then the reply to another.
fn put_both<K: Sink, T: Trees>(
    told: &Result<Text, Memory>,
    reader: &mut VariantReader,
    line: &[u8],
    out: &mut K,
    trees: &mut T,
) -> Status
    requires told { IfOk told.now (λ text. text ≡ taken_line reader.old.history) }
    requires state { reader.old ≡ starting reader.old.history }
    requires reads { reads_variant line.now ≡ true }
    ensures puts { (history : List Command) → Puts
        (answered_replica line.now reader.old.history history)
        (K.written out.old) (K.written out.new) (T.rows trees.old) (T.rows trees.new)
        (K.faults out.old) (K.faults out.new) (T.faults trees.old) (T.faults trees.new) result }
    ensures later { K.faults out.old ≤ K.faults out.new }
    ensures trees_later { T.faults trees.old ≤ T.faults trees.new }
{
    match told {
        Ok(told) => match out.put(told.as_slice()) {
            Ok(()) => put_answer(reader, line, out, trees),
            Err(Failed) => Status::WriteFault,
        },
        Err(Memory) => Status::NoMemory,
    }
}

// Puts the reply to a line behind its rows.
fn put_answer<K: Sink, T: Trees>(
    reader: &mut VariantReader,
    line: &[u8],
    out: &mut K,
    trees: &mut T,
) -> Status
    requires { reads_variant line.now ≡ true }
    ensures puts { PutsAnswer (step reader.old line.now)
        (K.written out.old) (K.written out.new) (T.rows trees.old) (T.rows trees.new)
        (K.faults out.old) (K.faults out.new) (T.faults trees.old) (T.faults trees.new) result }
    ensures later { K.faults out.old ≤ K.faults out.new }
    ensures trees_later { T.faults trees.old ≤ T.faults trees.new }
{
    match reader.answer(line) {
        Ok(reply) => put_given(&reply, out, trees),
        Err(Memory) => Status::NoMemory,
    }
}

// Puts a reply behind its rows.
fn put_given<K: Sink, T: Trees>(reply: &Reply, out: &mut K, trees: &mut T) -> Status
    ensures puts { (old : State) (line : List ℕ) (new : State) →
        Gives (step old line) new reply.now → PutsAnswer (step old line)
        (K.written out.old) (K.written out.new) (T.rows trees.old) (T.rows trees.new)
        (K.faults out.old) (K.faults out.new) (T.faults trees.old) (T.faults trees.new) result }
    ensures later { K.faults out.old ≤ K.faults out.new }
    ensures trees_later { T.faults trees.old ≤ T.faults trees.new }
{
    match put_reply(reply, out, trees) {
        Ok(answer) => answered_status(answer),
        Err(ending) => Status::from(ending),
    }
}

// How a run ends whose line was answered.
fn answered_status(answer: Answer) -> Status
    ensures { result ≡ answered_status answer }
{
    match answer {
        Answer::Accepted | Answer::Nothing => Status::Done,
        Answer::Refused => Status::SomeRefused,
    }
}
