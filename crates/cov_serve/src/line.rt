// One line: what it does, what it stores, the rows that it writes and its reply.
ghost use Rattle.std.specs.Prelude.{◌≡◌, ◌⊎◌, ◌≤◌, ◌++◌, List, ℕ, Some, true, IfOk, OnOk, OnErr, IfErr, IfSome};
ghost use Rattle.cov_disk.specs.Images.{LeavesOnly};
ghost use Rattle.cov_io.specs.Devices.{AppendsAll, AppendsSome};
ghost use Rattle.cov_journal.specs.Gates.{HasGate};
ghost use Rattle.cov_lines.specs.Step.{step};
ghost use Rattle.cov_lines.specs.Storing.{count, stored};
ghost use Rattle.cov_lines.specs.Sweeping.{GoesOn};
ghost use Rattle.cov_loop.specs.Answers.{IsServed};
ghost use Rattle.cov_loop.specs.Keeping.{AddsNoCommand, AreAll, IsEither};
ghost use Rattle.cov_serve.specs.Statuses.{StopsWithStatus};
ghost use Rattle.cov_store.specs.Stands.{gate_of};

use crate::status::Status;
use cov_disk::Disk;
use cov_io::Sink;
use cov_lines::Server;
use cov_loop::Answer;
use cov_out::Trees;

/// Serves one line: stores the command that it adds on the disk, writes its rows of trees, one call each, and then puts its reply in one
/// call. The server counts the commit that a line adds, and with each 64th of its run the engine is swept: then each entry of its table
/// is reached from a node that is kept. A line that adds no command leaves the disk as it is. At an `Err` the server is gone and the run ends.
pub fn serve_line<K: Sink, D: Disk, T: Trees>(
    mut server: Server,
    line: &[u8],
    out: &mut K,
    disk: &mut D,
    trees: &mut T,
) -> Result<(Server, Answer), Status>
    requires gate { HasGate (D.contents disk.old) (gate_of server.state.history) }
    ensures served { IfOk result (λ next.
        IsServed (step server.state line.now) next.0.state next.1) }
    ensures all { OnOk result
        (AppendsAll (step server.state line.now).reply (K.written out.old) (K.written out.new)) }
    ensures some { OnErr result
        (AppendsSome (step server.state line.now).reply (K.written out.old) (K.written out.new)) }
    ensures rows_all { OnOk result
        (AppendsAll (step server.state line.now).rows (T.rows trees.old) (T.rows trees.new)) }
    ensures rows_some { OnErr result
        (AppendsSome (step server.state line.now).rows (T.rows trees.old) (T.rows trees.new)) }
    ensures rows_first { OnErr result
        (AppendsAll (step server.state line.now).rows (T.rows trees.old) (T.rows trees.new)
        ⊎ (out.new ≡ out.old)) }

    // What a read of the disk gives is the store of the history after the line, if it was that of the history before.
    ensures gate { IfOk result (λ next.
        HasGate (D.contents disk.new) (gate_of next.0.state.history)) }
    ensures stored { IfSome (D.contents disk.old) (stored server.state) →
        IfOk result (λ next. IfSome (D.contents disk.new) (stored next.0.state)) }

    // A crash at any moment leaves the store of the history before the line or after it, and once the whole reply is written, after it.
    ensures any_moment { AreAll (stored server.state) (D.images disk.old) →
        LeavesOnly D.moment D.images_since disk.old disk.new
        (IsEither (stored server.state) (stored (step server.state line.now).state)) }
    ensures durable { AreAll (stored server.state) (D.images disk.old) →
        IfOk result (λ next. AreAll (stored next.0.state) (D.images disk.new)) }
    ensures acknowledged { (before : List ℕ) → AreAll (stored server.state) (D.images disk.old) →
        K.written out.old ≡ Some before →
        K.written out.new ≡ Some (before ++ (step server.state line.now).reply) →
        AreAll (stored (step server.state line.now).state) (D.images disk.new) }

    // A line that adds no command, as one that is refused, leaves the disk as it is, at an `Err` too.
    ensures unwritten { AddsNoCommand count server.state (step server.state line.now) →
        disk.new ≡ disk.old }
    ensures refused { (step server.state line.now).is_refused ≡ true → disk.new ≡ disk.old }

    ensures goes_on { IfOk result (λ next. GoesOn server next.0) }

    ensures stopped { IfErr result (λ status.
        StopsWithStatus status (K.faults out.old) (K.faults out.new)
        (D.faults disk.old) (D.faults disk.new) (T.faults trees.old) (T.faults trees.new)) }
    ensures later { K.faults out.old ≤ K.faults out.new }
    ensures disk_later { D.faults disk.old ≤ D.faults disk.new }
    ensures trees_later { T.faults trees.old ≤ T.faults trees.new }
{
    let served = cov_loop::serve_line(&mut server, line, out, disk, trees);
    match served {
        Ok(answer) => Ok((server, answer)),
        Err(ending) => {
            server.close();
            Err(Status::from(ending))
        }
    }
}
