// Scripts that are at hand, served to their ends.
ghost use Rattle.std.specs.Prelude.{◌≡◌, ◌≤◌, ◌<◌, ◌++◌, List, ℕ, Some, IfSome, length};
ghost use Rattle.cov_base.specs.Lines.{lines_of};
ghost use Rattle.cov_base.specs.declared.limits.TheConstants.{TOO_MANY_SCRIPT_BYTES};
ghost use Rattle.cov_disk.specs.Images.{LeavesOnly};
ghost use Rattle.cov_loop.specs.Keeping.{AddsNoCommand, AreAll, KeepsAnswered, Reaches};
ghost use Rattle.cov_loop.specs.Outcome.{answers};
ghost use Rattle.cov_loop.specs.Turns.{AtEnd, HasRows, HasStored, RowsComeFirst, WritesFront};
ghost use Rattle.cov_out.specs.declared.row.OutRow.{OutRow};
ghost use Rattle.cov_serve.specs.TextServing.{KeepsAfter, ReachesAfter, RowsComeAfter, StopsText, answers_after, is_end, rows_after};

use crate::text_source::{TextSource, Unwritten};
use cov_base::{Memory, Text};
use cov_disk::Disk;
use cov_io::{Lines, Sink};
use cov_loop::{Ending, LineServer, serve_all};
use cov_out::Trees;
use std::alloc::Global;

/// Serves the lines of a text, to its end or to the first failing call.
pub(crate) fn serve_text<V: LineServer, K: Sink, D: Disk, T: Trees>(
    alloc: Global,
    server: &mut V,
    text: Text,
    out: &mut K,
    disk: &mut D,
    trees: &mut T,
) -> Ending
    requires gate { IfSome (D.contents disk.old) (V.gate (V.state_of server.old)) }
    requires short { length text < TOO_MANY_SCRIPT_BYTES }
    ensures prefix { (before : List ℕ) → K.written out.old ≡ Some before →
        WritesFront before (answers V.step (V.state_of server.old) (lines_of text)).reply
        (K.written out.new) }
    ensures whole { (before : List ℕ) → K.written out.old ≡ Some before →
        AtEnd result (K.written out.new ≡
        Some (before ++ (answers V.step (V.state_of server.old) (lines_of text)).reply)) }
    ensures rows_prefix { (before : List OutRow) → T.rows trees.old ≡ Some before →
        WritesFront before (answers V.step (V.state_of server.old) (lines_of text)).rows
        (T.rows trees.new) }
    ensures rows_whole { (before : List OutRow) → T.rows trees.old ≡ Some before →
        HasRows result (answers V.step (V.state_of server.old) (lines_of text)) before
        (T.rows trees.new) }
    ensures rows_first { (before : List ℕ) (rows : List OutRow) → K.written out.old ≡ Some before →
        T.rows trees.old ≡ Some rows →
        RowsComeFirst V.step (V.state_of server.old) (lines_of text) before rows
        (K.written out.new) (T.rows trees.new) }
    ensures stored { IfSome (D.contents disk.old) (V.stored (V.state_of server.old)) →
        HasStored result V.stored (answers V.step (V.state_of server.old) (lines_of text))
        (D.contents disk.new) }
    ensures any_moment { AreAll (V.stored (V.state_of server.old)) (D.images disk.old) →
        LeavesOnly D.moment D.images_since disk.old disk.new
        (Reaches V.step V.stored (V.state_of server.old) (lines_of text)) }
    ensures acknowledged { (before bytes : List ℕ) →
        AreAll (V.stored (V.state_of server.old)) (D.images disk.old) →
        K.written out.old ≡ Some before → K.written out.new ≡ Some (before ++ bytes) →
        AreAll (KeepsAnswered V.step V.stored V.count (V.state_of server.old) (lines_of text) bytes)
        (D.images disk.new) }
    ensures state { AtEnd result (V.state_of server.new ≡
        (answers V.step (V.state_of server.old) (lines_of text)).state) }
    ensures gate { AtEnd result (IfSome (D.contents disk.new) (V.gate (V.state_of server.new))) }
    ensures durable { AreAll (V.stored (V.state_of server.old)) (D.images disk.old) →
        AtEnd result (AreAll (V.stored (V.state_of server.new)) (D.images disk.new)) }
    ensures unwritten { AddsNoCommand V.count (V.state_of server.old)
        (answers V.step (V.state_of server.old) (lines_of text)) → disk.new ≡ disk.old }
    ensures stopped { StopsText result (K.faults out.old) (K.faults out.new)
        (D.faults disk.old) (D.faults disk.new) (T.faults trees.old) (T.faults trees.new) }
    ensures later { K.faults out.old ≤ K.faults out.new }
    ensures disk_later { D.faults disk.old ≤ D.faults disk.new }
    ensures trees_later { T.faults trees.old ≤ T.faults trees.new }
{
    match Lines::new(alloc) {
        Ok(mut lines) => {
            let mut source = TextSource::new(alloc, text);
            serve_all(server, &mut lines, &mut source, out, disk, trees)
        }
        Err(Memory) => Ending::NoMemory,
    }
}

/// Serves the lines of a text whose replies aren't told, and then those of another whose replies are, to its end or to the first
/// failing call.
pub(crate) fn serve_after<V: LineServer, K: Sink, D: Disk, T: Trees>(
    alloc: Global,
    server: &mut V,
    made: Text,
    told: Text,
    out: &mut K,
    disk: &mut D,
    trees: &mut T,
) -> Ending
    requires gate { IfSome (D.contents disk.old) (V.gate (V.state_of server.old)) }
    requires made_short { length made < TOO_MANY_SCRIPT_BYTES }
    requires told_short { length told < TOO_MANY_SCRIPT_BYTES }
    ensures prefix { (before : List ℕ) → K.written out.old ≡ Some before →
        WritesFront before (answers_after V.step (V.state_of server.old) made told).reply
        (K.written out.new) }
    ensures whole { (before : List ℕ) → K.written out.old ≡ Some before →
        AtEnd result (K.written out.new ≡
        Some (before ++ (answers_after V.step (V.state_of server.old) made told).reply)) }
    ensures rows { (before : List OutRow) → T.rows trees.old ≡ Some before →
        WritesFront before (rows_after V.step (V.state_of server.old) made told)
        (T.rows trees.new) }
    ensures rows_whole { (before : List OutRow) → T.rows trees.old ≡ Some before →
        AtEnd result (T.rows trees.new ≡
        Some (before ++ rows_after V.step (V.state_of server.old) made told)) }
    ensures rows_first { (before : List ℕ) (rows : List OutRow) → K.written out.old ≡ Some before →
        T.rows trees.old ≡ Some rows →
        RowsComeAfter V.step (V.state_of server.old) made told before rows
        (K.written out.new) (T.rows trees.new) }
    ensures stored { IfSome (D.contents disk.old) (V.stored (V.state_of server.old)) →
        AtEnd result (IfSome (D.contents disk.new)
        (V.stored (answers_after V.step (V.state_of server.old) made told).state)) }
    ensures any_moment { AreAll (V.stored (V.state_of server.old)) (D.images disk.old) →
        LeavesOnly D.moment D.images_since disk.old disk.new
        (ReachesAfter V.step (V.state_of server.old) made told V.stored) }
    ensures acknowledged { (before bytes : List ℕ) →
        AreAll (V.stored (V.state_of server.old)) (D.images disk.old) →
        K.written out.old ≡ Some before → K.written out.new ≡ Some (before ++ bytes) →
        AreAll (KeepsAfter V.step (V.state_of server.old) made told V.stored V.count bytes)
        (D.images disk.new) }
    ensures durable { AreAll (V.stored (V.state_of server.old)) (D.images disk.old) →
        AtEnd result (AreAll
        (V.stored (answers_after V.step (V.state_of server.old) made told).state)
        (D.images disk.new)) }
    ensures unwritten { AddsNoCommand V.count (V.state_of server.old)
        (answers_after V.step (V.state_of server.old) made told) → disk.new ≡ disk.old }
    ensures stopped { StopsText result (K.faults out.old) (K.faults out.new)
        (D.faults disk.old) (D.faults disk.new) (T.faults trees.old) (T.faults trees.new) }
    ensures later { K.faults out.old ≤ K.faults out.new }
    ensures disk_later { D.faults disk.old ≤ D.faults disk.new }
    ensures trees_later { T.faults trees.old ≤ T.faults trees.new }
{
    let mut unwritten = Unwritten {};
    let ending = serve_text(alloc, server, made, &mut unwritten, disk, trees);
    if is_end(ending) {
        return serve_text(alloc, server, told, out, disk, trees);
    }
    ending
}

pub(crate) fn is_end(ending: Ending) -> bool
    ensures { result ≡ is_end ending }
{
    matches!(ending, Ending::Done | Ending::SomeRefused)
}
