// The script that a number stands for, as it is served over a store that was opened.
ghost use Rattle.std.specs.Prelude.{◌≡◌, ◌≤◌, ◌<◌, ◌++◌, List, ℕ, Some, IfOk, IfSome, length};
ghost use Rattle.cov_base.specs.declared.limits.TheConstants.{TOO_MANY_SCRIPT_BYTES};
ghost use Rattle.cov_disk.specs.Images.{LeavesOnly};
ghost use Rattle.cov_edit.specs.declared.command.Command.{Command};
ghost use Rattle.cov_journal.specs.Gates.{HasGate};
ghost use Rattle.cov_lines.specs.States.{starting};
ghost use Rattle.cov_loop.specs.Keeping.{AreAll};
ghost use Rattle.cov_loop.specs.Turns.{WritesFront};
ghost use Rattle.cov_out.specs.declared.row.OutRow.{OutRow};
ghost use Rattle.cov_script.specs.Demonstration.{checkout_lines, made_lines};
ghost use Rattle.cov_serve.specs.Jobs.{RowsPrecede, StandsForFront, StandsForTold, history_after, replies, rows_of, served_demo};
ghost use Rattle.cov_serve.specs.Program.{OnServed, PutsLast, StopsDemo, demo_line};
ghost use Rattle.cov_serve.specs.declared.status.Status.TheVariants.{Done};
ghost use Rattle.cov_store.specs.Stands.{StandsFor, IsStored, gate_of};

use crate::last_line::{demo_line, put_last};
use crate::status::Status;
use crate::text_serving::{is_end, serve_after};
use cov_base::{Memory, Text};
use cov_disk::Disk;
use cov_io::Sink;
use cov_lines::Server;
use cov_out::Trees;
use cov_script::demo;
use std::alloc::Global;

/// The bytes of the lines that end each such script, the checkouts.
const CHECKOUT_BYTES: usize = 147;

/// Serves the script that a number stands for with a store that was opened. Only what its checkouts are replied is written, and then
/// a line that tells the number.
pub(crate) fn serve_demo<K: Sink, D: Disk, T: Trees>(
    alloc: Global,
    mut server: Server,
    number: u64,
    out: &mut K,
    disk: &mut D,
    trees: &mut T,
) -> Status
    requires gate { HasGate (D.contents disk.old) (gate_of server.state.history) }
    ensures front { (history : List Command) (before : List ℕ) →
        server.state ≡ starting history → K.written out.old ≡ Some before →
        WritesFront before (replies (served_demo history number).turns) (K.written out.new) }
    ensures whole { (history : List Command) (before : List ℕ) →
        server.state ≡ starting history → K.written out.old ≡ Some before →
        OnServed result (λ refused.
        K.written out.new ≡ Some (before ++ replies (served_demo history number).turns)) }
    ensures stands { (history : List Command) → server.state ≡ starting history →
        IfSome (D.contents disk.old) (λ image. IsStored image history) →
        OnServed result (λ refused. IfSome (D.contents disk.new) (λ image.
        StandsFor image (history_after history (served_demo history number).turns))) }
    ensures rows { (history : List Command) (before : List OutRow) →
        server.state ≡ starting history → T.rows trees.old ≡ Some before →
        WritesFront before (rows_of (served_demo history number).turns) (T.rows trees.new) }
    ensures rows_whole { (history : List Command) (before : List OutRow) →
        server.state ≡ starting history → T.rows trees.old ≡ Some before →
        OnServed result (λ refused.
        T.rows trees.new ≡ Some (before ++ rows_of (served_demo history number).turns)) }
    ensures rows_first { (history : List Command) (before : List ℕ) (rows : List OutRow) →
        server.state ≡ starting history →
        K.written out.old ≡ Some before → T.rows trees.old ≡ Some rows →
        RowsPrecede (served_demo history number).turns before rows
        (K.written out.new) (T.rows trees.new) }
    ensures any_moment { (history : List Command) → server.state ≡ starting history →
        AreAll (λ image. IsStored image history) (D.images disk.old) →
        LeavesOnly D.moment D.images_since disk.old disk.new
        (StandsForFront history (served_demo history number).turns) }
    ensures acknowledged { (history : List Command) (before bytes : List ℕ) →
        server.state ≡ starting history →
        AreAll (λ image. IsStored image history) (D.images disk.old) →
        K.written out.old ≡ Some before → K.written out.new ≡ Some (before ++ bytes) →
        AreAll (StandsForTold history (served_demo history number).turns bytes)
        (D.images disk.new) }
    ensures stored_first { (history : List Command) (before bytes : List ℕ) →
        server.state ≡ starting history →
        AreAll (λ image. IsStored image history) (D.images disk.old) →
        K.written out.old ≡ Some before → K.written out.new ≡ Some (before ++ bytes) →
        0 < length bytes →
        AreAll (λ image. StandsFor image (history_after history (served_demo history number).turns))
        (D.images disk.new) }
    ensures unwritten { (history : List Command) → server.state ≡ starting history →
        length (history_after history (served_demo history number).turns) ≤ length history →
        disk.new ≡ disk.old }
    ensures stopped { StopsDemo result (K.faults out.old) (K.faults out.new)
        (D.faults disk.old) (D.faults disk.new) (T.faults trees.old) (T.faults trees.new) }
    ensures later { K.faults out.old ≤ K.faults out.new }
    ensures disk_later { D.faults disk.old ≤ D.faults disk.new }
    ensures trees_later { T.faults trees.old ≤ T.faults trees.new }
{
    match demo_parts(alloc, number) {
        Ok((made, told)) => {
            let ending = serve_after(alloc, &mut server, made, told, out, disk, trees);
            server.close();
            if is_end(ending) {
                return put_demo(alloc, number, out);
            }
            Status::from(ending)
        }
        Err(Memory) => {
            server.close();
            Status::NoMemory
        }
    }
}

// The script that a number stands for: what comes before the checkouts, and these.
fn demo_parts(alloc: Global, number: u64) -> Result<(Text, Text), Memory>
    ensures made { IfOk result (λ parts. parts.0 ≡ made_lines number) }
    ensures told { IfOk result (λ parts. parts.1 ≡ checkout_lines) }
    ensures made_short { IfOk result (λ parts. length parts.0 < TOO_MANY_SCRIPT_BYTES) }
    ensures told_short { IfOk result (λ parts. length parts.1 < TOO_MANY_SCRIPT_BYTES) }
{
    let text = demo(alloc, number)?;
    let (made, told) = text.as_slice().split_at(text.len() - CHECKOUT_BYTES);
    Ok((
        Text::from_slice(alloc, made)?,
        Text::from_slice(alloc, told)?,
    ))
}

// Tells that the script was served.
fn put_demo<K: Sink>(alloc: Global, number: u64, out: &mut K) -> Status
    ensures puts { PutsLast Done (demo_line number) (K.written out.old) (K.written out.new)
        (K.faults out.old) (K.faults out.new) result }
    ensures later { K.faults out.old ≤ K.faults out.new }
{
    match demo_line(alloc, number) {
        Ok(line) => put_last(line.as_slice(), Status::Done, out),
        Err(Memory) => Status::NoMemory,
    }
}
