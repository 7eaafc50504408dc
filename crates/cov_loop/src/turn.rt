// One line after another, to the end of a script.
ghost use Rattle.std.specs.Prelude.{◌≡◌, ◌||◌, ◌<◌, ◌≤◌, ◌++◌, List, ℕ, Some, length, IfOk, OnOk, IfErr, IfSome, OnErr};
ghost use Rattle.cov_base.specs.Lines.{lines_of};
ghost use Rattle.cov_disk.specs.Images.{LeavesOnly};
ghost use Rattle.cov_io.specs.Progress.{CountsGiven};
ghost use Rattle.cov_loop.specs.Answers.{is_refusal};
ghost use Rattle.cov_loop.specs.Counts.{Counted, Later, counts};
ghost use Rattle.cov_loop.specs.Keeping.{AddsNoCommand, AreAll, FirstAddsNone, KeepsAnswered, Reaches};
ghost use Rattle.cov_loop.specs.Outcome.{answers};
ghost use Rattle.cov_loop.specs.Turns.{AtEnd, Falls, HasRows, HasStored, ReadsOut, IsWhole, RowsComeFirst, StopsScript, StopsTurn, Turns, WritesFront, ahead_of, ending_at_end, ending_of, output, turn_of};
ghost use Rattle.cov_out.specs.declared.row.OutRow.{OutRow};

use crate::answer::Answer;
use crate::ending::Ending;
use crate::line::{serve_line, serve_long};
use crate::line_server::LineServer;
use cov_disk::Disk;
use cov_io::{Item, LineFault, Lines, Sink, Source};
use cov_out::Trees;

/// What a turn came to.
#[derive(Drop)]
pub(crate) enum Turn {
    /// No line is left.
    Ended,
    /// A line was served.
    Served(Answer),
}

// Serves the next line, if there is one.
fn serve_next<V: LineServer, S: Source, K: Sink, D: Disk, T: Trees>(
    server: &mut V,
    lines: &mut Lines,
    script: &mut S,
    out: &mut K,
    disk: &mut D,
    trees: &mut T,
) -> Result<Turn, Ending>
    requires gate { IfSome (D.contents disk.old) (V.gate (V.state_of server.old)) }
    ensures told { (text : List ℕ) → ahead_of lines.old (S.left script.old) ≡ Some text →
        Turns V.step (V.state_of server.old) text (V.state_of server.new)
        (ahead_of lines.new (S.left script.new))
        (output (K.written out.old) (T.rows trees.old))
        (output (K.written out.new) (T.rows trees.new)) result }
    ensures gate { OnOk result (IfSome (D.contents disk.new) (V.gate (V.state_of server.new))) }
    ensures stored { IfSome (D.contents disk.old) (V.stored (V.state_of server.old)) →
        OnOk result (IfSome (D.contents disk.new) (V.stored (V.state_of server.new))) }
    ensures any_moment { (text : List ℕ) → ahead_of lines.old (S.left script.old) ≡ Some text →
        AreAll (V.stored (V.state_of server.old)) (D.images disk.old) →
        LeavesOnly D.moment D.images_since disk.old disk.new
        (Reaches V.step V.stored (V.state_of server.old) (lines_of text)) }
    ensures durable { AreAll (V.stored (V.state_of server.old)) (D.images disk.old) →
        OnOk result (AreAll (V.stored (V.state_of server.new)) (D.images disk.new)) }
    ensures acknowledged { (text before bytes : List ℕ) →
        ahead_of lines.old (S.left script.old) ≡ Some text →
        AreAll (V.stored (V.state_of server.old)) (D.images disk.old) →
        K.written out.old ≡ Some before → K.written out.new ≡ Some (before ++ bytes) →
        OnErr result
        (AreAll (KeepsAnswered V.step V.stored V.count (V.state_of server.old)
        (lines_of text) bytes)
        (D.images disk.new)) }
    ensures unwritten { (text : List ℕ) → ahead_of lines.old (S.left script.old) ≡ Some text →
        FirstAddsNone V.step V.count (V.state_of server.old) (lines_of text) →
        disk.new ≡ disk.old }
    ensures counted { Counted lines.old lines.new
        (counts (S.faults script.old) (K.faults out.old) (D.faults disk.old) (T.faults trees.old)
        (S.given script.old) (S.ends script.old))
        (counts (S.faults script.new) (K.faults out.new) (D.faults disk.new) (T.faults trees.new)
        (S.given script.new) (S.ends script.new)) }
    ensures left { CountsGiven (S.left script.old) (S.left script.new)
        (S.given script.old) (S.given script.new) }
    ensures stopped { IfErr result (λ ending. StopsTurn ending lines.new
        (counts (S.faults script.old) (K.faults out.old) (D.faults disk.old) (T.faults trees.old)
        (S.given script.old) (S.ends script.old))
        (counts (S.faults script.new) (K.faults out.new) (D.faults disk.new) (T.faults trees.new)
        (S.given script.new) (S.ends script.new))) }
    ensures falls { IfOk result (Falls lines.old lines.new) }
{
    match lines.next(script) {
        Ok(Item::End) => Ok(Turn::Ended),
        Ok(Item::Line(line)) => as_turn(serve_line(server, line.as_slice(), out, disk, trees)),
        Ok(Item::Long) => as_turn(serve_long(server, out, trees)),
        Err(fault) => Err(ending_of(fault)),
    }
}

fn as_turn(served: Result<Answer, Ending>) -> Result<Turn, Ending>
    ensures { result ≡ turn_of served }
{
    match served {
        Ok(answer) => Ok(Turn::Served(answer)),
        Err(ending) => Err(ending),
    }
}

fn ending_of(fault: LineFault) -> Ending
    ensures { result ≡ ending_of fault }
{
    match fault {
        LineFault::ReadFault => Ending::ReadFault,
        LineFault::TooMuch => Ending::TooMuch,
        LineFault::Memory => Ending::NoMemory,
    }
}

/// Serves the lines that are ahead, to the end of the script or to the first failing call. Then the server is to be given up.
pub fn serve_all<V: LineServer, S: Source, K: Sink, D: Disk, T: Trees>(
    server: &mut V,
    lines: &mut Lines,
    script: &mut S,
    out: &mut K,
    disk: &mut D,
    trees: &mut T,
) -> Ending
    requires gate { IfSome (D.contents disk.old) (V.gate (V.state_of server.old)) }
    // At the end of the script its text is read to the end, and the ending says whether a line was refused.
    ensures ended { (text : List ℕ) →
        ahead_of lines.old (S.left script.old) ≡ Some text →
        ReadsOut result (answers V.step (V.state_of server.old) (lines_of text))
        (S.left script.new) }
    ensures prefix { (text before : List ℕ) →
        ahead_of lines.old (S.left script.old) ≡ Some text → K.written out.old ≡ Some before →
        WritesFront before (answers V.step (V.state_of server.old) (lines_of text)).reply
        (K.written out.new) }
    ensures whole { (text before : List ℕ) →
        ahead_of lines.old (S.left script.old) ≡ Some text → K.written out.old ≡ Some before →
        IsWhole result (answers V.step (V.state_of server.old) (lines_of text)) before
        (S.left script.new) (K.written out.new) }
    ensures rows_prefix { (text : List ℕ) (before : List OutRow) →
        ahead_of lines.old (S.left script.old) ≡ Some text → T.rows trees.old ≡ Some before →
        WritesFront before (answers V.step (V.state_of server.old) (lines_of text)).rows
        (T.rows trees.new) }
    ensures rows_whole { (text : List ℕ) (before : List OutRow) →
        ahead_of lines.old (S.left script.old) ≡ Some text → T.rows trees.old ≡ Some before →
        HasRows result (answers V.step (V.state_of server.old) (lines_of text)) before
        (T.rows trees.new) }
    ensures rows_first { (text before : List ℕ) (rows : List OutRow) →
        ahead_of lines.old (S.left script.old) ≡ Some text → K.written out.old ≡ Some before →
        T.rows trees.old ≡ Some rows →
        RowsComeFirst V.step (V.state_of server.old) (lines_of text) before rows
        (K.written out.new) (T.rows trees.new) }

    // At the end of the script, what a read of the disk gives is stored for the state that the whole script gives.
    ensures stored { (text : List ℕ) →
        ahead_of lines.old (S.left script.old) ≡ Some text →
        IfSome (D.contents disk.old) (V.stored (V.state_of server.old)) →
        HasStored result V.stored (answers V.step (V.state_of server.old) (lines_of text))
        (D.contents disk.new) }

    // A crash at any moment leaves what is stored for the state after the first few lines, and at the return these have each command
    // whose whole reply is written.
    ensures any_moment { (text : List ℕ) →
        ahead_of lines.old (S.left script.old) ≡ Some text →
        AreAll (V.stored (V.state_of server.old)) (D.images disk.old) →
        LeavesOnly D.moment D.images_since disk.old disk.new
        (Reaches V.step V.stored (V.state_of server.old) (lines_of text)) }
    ensures acknowledged { (text before bytes : List ℕ) →
        ahead_of lines.old (S.left script.old) ≡ Some text →
        AreAll (V.stored (V.state_of server.old)) (D.images disk.old) →
        K.written out.old ≡ Some before → K.written out.new ≡ Some (before ++ bytes) →
        AreAll (KeepsAnswered V.step V.stored V.count (V.state_of server.old) (lines_of text) bytes)
        (D.images disk.new) }

    // A script that adds no command leaves the disk as it is, however the run ends, and so do the lines that add none before the first
    // that does: the disk has changed only where their replies are written whole.
    ensures unwritten { (text : List ℕ) →
        ahead_of lines.old (S.left script.old) ≡ Some text →
        AddsNoCommand V.count (V.state_of server.old)
        (answers V.step (V.state_of server.old) (lines_of text)) → disk.new ≡ disk.old }
    ensures untouched { (text before bytes : List ℕ) (first rest : List (List ℕ)) →
        ahead_of lines.old (S.left script.old) ≡ Some text → lines_of text ≡ first ++ rest →
        AddsNoCommand V.count (V.state_of server.old)
        (answers V.step (V.state_of server.old) first) →
        K.written out.old ≡ Some before → K.written out.new ≡ Some (before ++ bytes) →
        length bytes < length (answers V.step (V.state_of server.old) first).reply →
        disk.new ≡ disk.old }

    // At the end of the script, the server has the state that the whole script gives, and another script can be served.
    ensures state { (text : List ℕ) →
        ahead_of lines.old (S.left script.old) ≡ Some text →
        AtEnd result (V.state_of server.new ≡
        (answers V.step (V.state_of server.old) (lines_of text)).state) }
    ensures gate { AtEnd result (IfSome (D.contents disk.new) (V.gate (V.state_of server.new))) }
    ensures durable { AreAll (V.stored (V.state_of server.old)) (D.images disk.old) →
        AtEnd result (AreAll (V.stored (V.state_of server.new)) (D.images disk.new)) }

    ensures later { Later
        (counts (S.faults script.old) (K.faults out.old) (D.faults disk.old) (T.faults trees.old)
        (S.given script.old) (S.ends script.old))
        (counts (S.faults script.new) (K.faults out.new) (D.faults disk.new) (T.faults trees.new)
        (S.given script.new) (S.ends script.new)) }
    ensures left { CountsGiven (S.left script.old) (S.left script.new)
        (S.given script.old) (S.given script.new) }
    ensures stopped { StopsScript result lines.old
        (counts (S.faults script.old) (K.faults out.old) (D.faults disk.old) (T.faults trees.old)
        (S.given script.old) (S.ends script.old))
        (counts (S.faults script.new) (K.faults out.new) (D.faults disk.new) (T.faults trees.new)
        (S.given script.new) (S.ends script.new)) }
{
    let mut refused = false;
    'turns: loop {
        match serve_next(server, lines, script, out, disk, trees) {
            Ok(turn) => match turn {
                Turn::Served(answer) => refused = either(refused, answer),
                Turn::Ended => return ending_at_end(refused),
            },
            Err(ending) => return ending,
        }
    }
}

// Whether a line was refused, one more having been answered.
fn either(refused: bool, answer: Answer) -> bool
    ensures { result ≡ (refused || is_refusal answer) }
{
    refused || matches!(answer, Answer::Refused)
}

fn ending_at_end(refused: bool) -> Ending
    ensures { result ≡ ending_at_end refused }
{
    match refused {
        true => Ending::SomeRefused,
        false => Ending::Done,
    }
}
