// One line: what it does, what it stores, the rows that it writes and its reply.
ghost use Rattle.std.specs.Prelude.{◌≡◌, ◌⊎◌, ◌≤◌, ◌<◌, ◌++◌, ℕ, List, Some, true, length, IfOk, OnOk, OnErr, IfErr, IfSome};
ghost use Rattle.cov_base.specs.Causes.{HasCause, Rose};
ghost use Rattle.cov_base.specs.declared.limits.TheConstants.{MOST_SCRIPT_LINE_BYTES};
ghost use Rattle.cov_disk.specs.Images.{LeavesOnly};
ghost use Rattle.cov_io.specs.Devices.{AppendsAll, AppendsSome};
ghost use Rattle.cov_loop.specs.Answers.{IsServed, StopsLine, is_silent, is_passed_over};
ghost use Rattle.cov_loop.specs.Keeping.{AddsNoCommand, AreAll, IsEither};

use crate::answer::{Answer, Reply};
use crate::ending::Ending;
use crate::line_server::LineServer;
use crate::rows::put_rows;
use cov_base::{Failed, MOST_SCRIPT_LINE_BYTES, Memory};
use cov_disk::Disk;
use cov_io::Sink;
use cov_out::Trees;

/// Serves one line: stores what it adds, writes its rows, one call each, and then puts its reply in one call. An empty line or a comment
/// meets no server. At an `Err` the server is to be given up, and the run ends.
pub fn serve_line<V: LineServer, K: Sink, D: Disk, T: Trees>(
    server: &mut V,
    line: &[u8],
    out: &mut K,
    disk: &mut D,
    trees: &mut T,
) -> Result<Answer, Ending>
    requires gate { IfSome (D.contents disk.old) (V.gate (V.state_of server.old)) }
    ensures served { IfOk result
        (IsServed (V.step (V.state_of server.old) line.now) (V.state_of server.new)) }
    ensures all { OnOk result
        (AppendsAll (V.step (V.state_of server.old) line.now).reply (K.written out.old)
        (K.written out.new)) }
    ensures some { OnErr result
        (AppendsSome (V.step (V.state_of server.old) line.now).reply (K.written out.old)
        (K.written out.new)) }
    ensures rows_all { OnOk result
        (AppendsAll (V.step (V.state_of server.old) line.now).rows (T.rows trees.old)
        (T.rows trees.new)) }
    ensures rows_some { OnErr result
        (AppendsSome (V.step (V.state_of server.old) line.now).rows (T.rows trees.old)
        (T.rows trees.new)) }
    ensures rows_first { OnErr result
        (AppendsAll (V.step (V.state_of server.old) line.now).rows (T.rows trees.old)
        (T.rows trees.new)
        ⊎ (out.new ≡ out.old)) }

    // What a read of the disk gives is stored for the state after the line, if it was for that before.
    ensures gate { OnOk result (IfSome (D.contents disk.new) (V.gate (V.state_of server.new))) }
    ensures stored { IfSome (D.contents disk.old) (V.stored (V.state_of server.old)) →
        OnOk result (IfSome (D.contents disk.new) (V.stored (V.state_of server.new))) }

    // A crash at any moment leaves what is stored for the state before the line or after it, and once the whole reply is written, after
    // it.
    ensures any_moment { AreAll (V.stored (V.state_of server.old)) (D.images disk.old) →
        LeavesOnly D.moment D.images_since disk.old disk.new
        (IsEither (V.stored (V.state_of server.old))
        (V.stored (V.step (V.state_of server.old) line.now).state)) }
    ensures durable { AreAll (V.stored (V.state_of server.old)) (D.images disk.old) →
        OnOk result (AreAll (V.stored (V.state_of server.new)) (D.images disk.new)) }
    ensures acknowledged { (before : List ℕ) →
        AreAll (V.stored (V.state_of server.old)) (D.images disk.old) →
        K.written out.old ≡ Some before →
        K.written out.new ≡ Some (before ++ (V.step (V.state_of server.old) line.now).reply) →
        AreAll (V.stored (V.step (V.state_of server.old) line.now).state) (D.images disk.new) }

    // A line that adds no command, as one that is refused, leaves the disk as it is, at an `Err` too.
    ensures unwritten { AddsNoCommand V.count (V.state_of server.old)
        (V.step (V.state_of server.old) line.now) → disk.new ≡ disk.old }
    ensures refused { (V.step (V.state_of server.old) line.now).is_refused ≡ true →
        disk.new ≡ disk.old }

    // The disk fails, or it is left as it is, or each image is stored for the state after the line.
    ensures settled { AreAll (V.stored (V.state_of server.old)) (D.images disk.old) →
        Rose (D.faults disk.old) (D.faults disk.new) ⊎ (disk.new ≡ disk.old)
        ⊎ AreAll (V.stored (V.step (V.state_of server.old) line.now).state) (D.images disk.new) }

    ensures goes_on { OnOk result (V.goes_on server.old server.new) }

    ensures stopped { IfErr result (λ ending.
        StopsLine ending (K.faults out.old) (K.faults out.new)
        (D.faults disk.old) (D.faults disk.new) (T.faults trees.old) (T.faults trees.new)) }
    ensures later { K.faults out.old ≤ K.faults out.new }
    ensures disk_later { D.faults disk.old ≤ D.faults disk.new }
    ensures trees_later { T.faults trees.old ≤ T.faults trees.new }
{
    if is_passed_over(line) {
        return Ok(Answer::Nothing);
    }
    match server.answer(line, disk) {
        Ok(reply) => put_reply(&reply, out, trees),
        Err(ending) => Err(ending),
    }
}

// Whether a line is empty or a comment, and not too long to be served.
fn is_passed_over(line: &[u8]) -> bool
    ensures { result ≡ is_passed_over line.now }
{
    line.len() <= MOST_SCRIPT_LINE_BYTES && is_silent(line)
}

fn is_silent(line: &[u8]) -> bool
    ensures { result ≡ is_silent line.now }
{
    match line {
        [] => true,
        [first, ..] => *first == b'#',
    }
}

// Serves a line of more than `MOST_SCRIPT_LINE_BYTES`, which was skipped. It calls no disk.
pub(crate) fn serve_long<V: LineServer, K: Sink, T: Trees>(
    server: &mut V,
    out: &mut K,
    trees: &mut T,
) -> Result<Answer, Ending>
    ensures served { (line : List ℕ) → MOST_SCRIPT_LINE_BYTES < length line →
        IfOk result (IsServed (V.step (V.state_of server.old) line) (V.state_of server.new)) }
    ensures all { (line : List ℕ) → MOST_SCRIPT_LINE_BYTES < length line →
        OnOk result
        (AppendsAll (V.step (V.state_of server.old) line).reply (K.written out.old)
        (K.written out.new)) }
    ensures some { (line : List ℕ) → MOST_SCRIPT_LINE_BYTES < length line →
        OnErr result
        (AppendsSome (V.step (V.state_of server.old) line).reply (K.written out.old)
        (K.written out.new)) }
    ensures rows_all { (line : List ℕ) → MOST_SCRIPT_LINE_BYTES < length line →
        OnOk result
        (AppendsAll (V.step (V.state_of server.old) line).rows (T.rows trees.old)
        (T.rows trees.new)) }
    ensures rows_some { (line : List ℕ) → MOST_SCRIPT_LINE_BYTES < length line →
        OnErr result
        (AppendsSome (V.step (V.state_of server.old) line).rows (T.rows trees.old)
        (T.rows trees.new)) }
    ensures rows_first { (line : List ℕ) → MOST_SCRIPT_LINE_BYTES < length line →
        OnErr result
        (AppendsAll (V.step (V.state_of server.old) line).rows (T.rows trees.old) (T.rows trees.new)
        ⊎ (out.new ≡ out.old)) }
    ensures same { OnOk result (V.state_of server.new ≡ V.state_of server.old) }
    ensures goes_on { OnOk result (V.goes_on server.old server.new) }
    ensures stopped { (disk disk' : ℕ) → IfErr result (λ ending.
        StopsLine ending (K.faults out.old) (K.faults out.new)
        disk disk' (T.faults trees.old) (T.faults trees.new)) }
    ensures later { K.faults out.old ≤ K.faults out.new }
    ensures trees_later { T.faults trees.old ≤ T.faults trees.new }
{
    match server.answer_long() {
        Ok(reply) => put_reply(&reply, out, trees),
        Err(Memory) => Err(Ending::NoMemory),
    }
}

/// Writes the rows of a reply, one call each, and then puts its text in one call. Where there is no text, the sink isn't called.
pub fn put_reply<K: Sink, T: Trees>(
    reply: &Reply,
    out: &mut K,
    trees: &mut T,
) -> Result<Answer, Ending>
    ensures served { IfOk result (λ answer. answer ≡ reply.now.answer) }
    ensures all { OnOk result (AppendsAll reply.now.text (K.written out.old) (K.written out.new)) }
    ensures some { OnErr result
        (AppendsSome reply.now.text (K.written out.old) (K.written out.new)) }
    ensures rows_all { OnOk result
        (AppendsAll reply.now.rows (T.rows trees.old) (T.rows trees.new)) }
    ensures rows_some { OnErr result
        (AppendsSome reply.now.rows (T.rows trees.old) (T.rows trees.new)) }
    ensures rows_first { OnErr result
        (AppendsAll reply.now.rows (T.rows trees.old) (T.rows trees.new) ⊎ (out.new ≡ out.old)) }
    ensures stopped { (disk disk' : ℕ) → IfErr result (λ ending.
        StopsLine ending (K.faults out.old) (K.faults out.new)
        disk disk' (T.faults trees.old) (T.faults trees.new)) }
    ensures later { K.faults out.old ≤ K.faults out.new }
    ensures trees_later { T.faults trees.old ≤ T.faults trees.new }
{
    match put_rows(&reply.rows, trees) {
        Ok(()) => put_answer(reply, out),
        Err(Failed) => Err(Ending::TreesFault),
    }
}

// Puts the text of a reply, whose rows are written.
fn put_answer<K: Sink>(reply: &Reply, out: &mut K) -> Result<Answer, Ending>
    ensures served { IfOk result (λ answer. answer ≡ reply.now.answer) }
    ensures all { OnOk result (AppendsAll reply.now.text (K.written out.old) (K.written out.new)) }
    ensures some { OnErr result
        (AppendsSome reply.now.text (K.written out.old) (K.written out.new)) }
    ensures stopped { (disk disk' trees trees' : ℕ) → IfErr result (λ ending.
        StopsLine ending (K.faults out.old) (K.faults out.new) disk disk' trees trees') }
    ensures later { K.faults out.old ≤ K.faults out.new }
{
    match put_text(reply.text.as_slice(), out) {
        Ok(()) => Ok(reply.answer),
        Err(Failed) => Err(Ending::WriteFault),
    }
}

// Where there is no text, the sink isn't called.
fn put_text<K: Sink>(text: &[u8], out: &mut K) -> Result<(), Failed>
    ensures all { OnOk result (AppendsAll text.now (K.written out.old) (K.written out.new)) }
    ensures some { OnErr result (AppendsSome text.now (K.written out.old) (K.written out.new)) }
    ensures cause { HasCause (K.faults out.old) (K.faults out.new) result }
{
    match text {
        [] => Ok(()),
        _ => out.put(text),
    }
}
