// The program: what its words say is done with the devices that it is handed.
ghost use Rattle.std.specs.Prelude.{◌≡◌, ◌⊎◌, ◌≤◌, ◌<◌, ◌++◌, Bool, true, false, List, [], ℕ, Some, IfSome, length};
ghost use Rattle.cov_base.specs.Lines.{lines_of};
ghost use Rattle.cov_disk.specs.Images.{LeavesOnly};
ghost use Rattle.cov_edit.specs.declared.command.Command.{Command};
ghost use Rattle.cov_io.specs.Progress.{CountsGiven};
ghost use Rattle.cov_journal.specs.Gates.{HasGate};
ghost use Rattle.cov_journal.specs.Moments.{KeepsImages};
ghost use Rattle.cov_lines.specs.States.{starting};
ghost use Rattle.cov_lines.specs.Step.{model, step};
ghost use Rattle.cov_lines.specs.Storing.{count};
ghost use Rattle.cov_loop.specs.Counts.{Later, counts};
ghost use Rattle.cov_loop.specs.Keeping.{AddsNoCommand, AreAll};
ghost use Rattle.cov_loop.specs.Turns.{RowsComeFirst, WritesFront};
ghost use Rattle.cov_out.specs.declared.row.OutRow.{OutRow};
ghost use Rattle.cov_serve.specs.Jobs.{ComesTo, EndsAs, IsCaused, IsSettled, IsShort, JobOutcome, LeavesDisk, NoneRose, OnEnd, RowsPrecede, StandsForFront, StandsForTold, StartsFrom, TellsUnopened, history_after, job_of, opens_disk, outcome, reads_source, replies, rows_of, served_script, stores_first, writes_trees};
ghost use Rattle.cov_serve.specs.Program.{OnServed, PutsLast, ReadsAs, StopsServing, check_line};
ghost use Rattle.cov_serve.specs.declared.status.Status.TheVariants.{Done, NoMemory};
ghost use Rattle.cov_store.specs.Stands.{StandsFor, IsStored, gate_of};

use crate::demo::serve_demo;
use crate::import::serve_import;
use crate::job::{Job, StoreJob, job_of};
use crate::last_line::{check_line, put_last, tell_fault};
use crate::replica::serve_replica;
use crate::status::Status;
use cov_base::{Memory, Texts};
use cov_disk::Disk;
use cov_io::{Lines, Sink, Source};
use cov_lines::Server;
use cov_loop::serve_all;
use cov_out::Trees;
use std::alloc::Global;

/// The line that tells the words.
const USAGE: &[u8] = b"usage: covstore run | check | demo N | import PATH | replica LINE\n";

/// Does what the words after the program's name say. `run` opens the store and serves the script, line by line: stores what a line
/// adds, writes its rows of trees, one call each, and then puts its reply in one call. `check` opens the store, and tells how many
/// records it has. `demo N` serves the script that the number N stands for, and tells what its checkouts are replied. `import PATH` opens
/// the store, reads the source to its end as a conditional text, and adds it as a new file at the path: stores one commit after
/// another, and puts the reply to each in one call; or it puts one line that tells why the text isn't taken in. `replica LINE` opens no
/// disk: it reads the source to its end as the bytes of a journal, tells how many records were taken, and serves the line over their
/// history, if it is a `cat` or a `checkout`; or it tells in one line what is wrong with them. A store that can't be opened is told in
/// one line. All else writes the usage line. The first failing call ends the run. Want of memory may
/// come at any moment.
pub fn run<S: Source, K: Sink, D: Disk, T: Trees>(
    alloc: Global,
    words: &Texts,
    script: &mut S,
    out: &mut K,
    disk: &mut D,
    trees: &mut T,
) -> Status
    // A run that comes to its end has the status of the job's outcome, and read the source to its end if the job reads it.
    ensures ends { (all : JobOutcome) →
        ComesTo (job_of words.now) (D.contents disk.old) (S.left script.old) all →
        OnEnd result (EndsAs all result (S.left script.new)) }

    // What is written is a front of the outcome's replies, with every status; at the end, all of them.
    ensures front { (all : JobOutcome) (before : List ℕ) →
        ComesTo (job_of words.now) (D.contents disk.old) (S.left script.old) all →
        K.written out.old ≡ Some before →
        WritesFront before (replies all.turns) (K.written out.new) }
    ensures whole { (all : JobOutcome) (before : List ℕ) →
        ComesTo (job_of words.now) (D.contents disk.old) (S.left script.old) all →
        K.written out.old ≡ Some before →
        OnEnd result (K.written out.new ≡ Some (before ++ replies all.turns)) }

    // The same of the rows of trees. Where a whole reply is written, all rows up to it are.
    ensures rows { (all : JobOutcome) (before : List OutRow) →
        ComesTo (job_of words.now) (D.contents disk.old) (S.left script.old) all →
        T.rows trees.old ≡ Some before →
        WritesFront before (rows_of all.turns) (T.rows trees.new) }
    ensures rows_whole { (all : JobOutcome) (before : List OutRow) →
        ComesTo (job_of words.now) (D.contents disk.old) (S.left script.old) all →
        T.rows trees.old ≡ Some before →
        OnEnd result (T.rows trees.new ≡ Some (before ++ rows_of all.turns)) }
    ensures rows_first { (all : JobOutcome) (before : List ℕ) (rows : List OutRow) →
        ComesTo (job_of words.now) (D.contents disk.old) (S.left script.old) all →
        K.written out.old ≡ Some before → T.rows trees.old ≡ Some rows →
        RowsPrecede all.turns before rows (K.written out.new) (T.rows trees.new) }

    // A read of the disk gives the history that the job leaves. A disk that can't be opened, and one of over 13 bytes to which the job
    // adds no command, reads as before and has no image more, with every status.
    ensures stands { (history : List Command) (text : List ℕ) →
        ReadsAs (D.contents disk.old) history →
        StartsFrom (job_of words.now) (D.contents disk.old) (S.left script.old) history text →
        IsSettled (job_of words.now) result →
        IfSome (D.contents disk.new) (λ image.
        StandsFor image (history_after history (outcome (job_of words.now) history text).turns)) }
    ensures kept { LeavesDisk (job_of words.now) (D.contents disk.old) (S.left script.old) →
        (D.contents disk.new ≡ D.contents disk.old)
        × KeepsImages D.images D.moment D.images_since disk.old disk.new }

    // A crash at any moment leaves the history with the first few of the commands that the job adds; at the return, with at
    // least those of the turns whose whole replies are among the bytes written.
    ensures any_moment { (history : List Command) (text : List ℕ) →
        AreAll (λ image. StandsFor image history) (D.images disk.old) →
        StartsFrom (job_of words.now) (D.contents disk.old) (S.left script.old) history text →
        LeavesOnly D.moment D.images_since disk.old disk.new
        (StandsForFront history (outcome (job_of words.now) history text).turns) }
    ensures acknowledged { (history : List Command) (text before bytes : List ℕ) →
        AreAll (λ image. StandsFor image history) (D.images disk.old) →
        StartsFrom (job_of words.now) (D.contents disk.old) (S.left script.old) history text →
        K.written out.old ≡ Some before → K.written out.new ≡ Some (before ++ bytes) →
        AreAll (StandsForTold history (outcome (job_of words.now) history text).turns bytes)
        (D.images disk.new) }

    // Where a job stores all that it adds before it writes a byte, a crash leaves all of it once a byte is written.
    ensures stored_first { (history : List Command) (text before bytes : List ℕ) →
        AreAll (λ image. StandsFor image history) (D.images disk.old) →
        StartsFrom (job_of words.now) (D.contents disk.old) (S.left script.old) history text →
        stores_first (job_of words.now) ≡ true →
        K.written out.old ≡ Some before → K.written out.new ≡ Some (before ++ bytes) →
        0 < length bytes →
        AreAll (λ image. StandsFor image
        (history_after history (outcome (job_of words.now) history text).turns))
        (D.images disk.new) }

    // What the job has nothing to do with is as before; so are the source and the trees where the store can't be opened.
    ensures unread { reads_source (job_of words.now) ≡ false → script.new ≡ script.old }
    ensures unwritten { writes_trees (job_of words.now) ≡ false → trees.new ≡ trees.old }
    ensures untouched { opens_disk (job_of words.now) ≡ false → disk.new ≡ disk.old }
    ensures unopened { (all : JobOutcome) →
        opens_disk (job_of words.now) ≡ true → TellsUnopened (D.contents disk.old) all →
        (script.new ≡ script.old) × (trees.new ≡ trees.old) }

    // Each status has its cause, and no count falls.
    ensures cause { IsCaused (job_of words.now) (D.contents disk.old) (S.left script.old)
        (counts (S.faults script.old) (K.faults out.old) (D.faults disk.old) (T.faults trees.old)
        (S.given script.old) (S.ends script.old))
        (counts (S.faults script.new) (K.faults out.new) (D.faults disk.new) (T.faults trees.new)
        (S.given script.new) (S.ends script.new)) result }
    ensures later { Later
        (counts (S.faults script.old) (K.faults out.old) (D.faults disk.old) (T.faults trees.old)
        (S.given script.old) (S.ends script.old))
        (counts (S.faults script.new) (K.faults out.new) (D.faults disk.new) (T.faults trees.new)
        (S.given script.new) (S.ends script.new)) }

    // Where no device fails with which the outcome has to do, and the source isn't too long, the run comes to its end, unless memory
    // is wanting.
    ensures complete { (all : JobOutcome) →
        ComesTo (job_of words.now) (D.contents disk.old) (S.left script.old) all →
        IsShort all.reads (S.left script.old) →
        NoneRose (job_of words.now) all
        (counts (S.faults script.old) (K.faults out.old) (D.faults disk.old) (T.faults trees.old)
        (S.given script.old) (S.ends script.old))
        (counts (S.faults script.new) (K.faults out.new) (D.faults disk.new) (T.faults trees.new)
        (S.given script.new) (S.ends script.new)) →
        (result ≡ all.status) ⊎ (result ≡ NoMemory) }
{
    match job_of(alloc, words) {
        Ok(Job::OnStore(job)) => match Server::open(alloc, disk) {
            Ok(server) => match job {
                StoreJob::Run => serve_opened(alloc, server, script, out, disk, trees),
                StoreJob::Check => put_checked(alloc, server, out),
                StoreJob::Demo(number) => serve_demo(alloc, server, number, out, disk, trees),
                StoreJob::Import(path) => serve_import(alloc, server, &path, script, out, disk),
            },
            Err(fault) => {
                job.close();
                tell_fault(alloc, fault, out)
            }
        },
        Ok(Job::Replica(line)) => serve_replica(alloc, line.as_slice(), script, out, trees),
        Ok(Job::Unknown) => put_last(USAGE, Status::Usage, out),
        Err(Memory) => Status::NoMemory,
    }
}

// Serves a script with a store that was opened.
fn serve_opened<S: Source, K: Sink, D: Disk, T: Trees>(
    alloc: Global,
    mut server: Server,
    script: &mut S,
    out: &mut K,
    disk: &mut D,
    trees: &mut T,
) -> Status
    requires gate { HasGate (D.contents disk.old) (gate_of server.state.history) }
    ensures ended { (history : List Command) (text : List ℕ) →
        server.state ≡ starting history → S.left script.old ≡ Some text →
        OnServed result (λ refused.
        ((model history text).is_refused ≡ refused) × (S.left script.new ≡ Some [])) }
    ensures prefix { (history : List Command) (text before : List ℕ) →
        server.state ≡ starting history → S.left script.old ≡ Some text →
        K.written out.old ≡ Some before →
        WritesFront before (model history text).reply (K.written out.new) }
    ensures whole { (history : List Command) (text before : List ℕ) →
        server.state ≡ starting history → S.left script.old ≡ Some text →
        K.written out.old ≡ Some before →
        OnServed result (λ refused.
        K.written out.new ≡ Some (before ++ (model history text).reply)) }
    ensures stands { (history : List Command) (text : List ℕ) →
        server.state ≡ starting history → S.left script.old ≡ Some text →
        IfSome (D.contents disk.old) (λ image. IsStored image history) →
        OnServed result (λ refused. IfSome (D.contents disk.new) (λ image.
        StandsFor image (model history text).state.history)) }
    ensures rows { (history : List Command) (text : List ℕ) (before : List OutRow) →
        server.state ≡ starting history → S.left script.old ≡ Some text →
        T.rows trees.old ≡ Some before →
        WritesFront before (model history text).rows (T.rows trees.new) }
    ensures rows_whole { (history : List Command) (text : List ℕ) (before : List OutRow) →
        server.state ≡ starting history → S.left script.old ≡ Some text →
        T.rows trees.old ≡ Some before →
        OnServed result (λ refused. T.rows trees.new ≡ Some (before ++ (model history text).rows)) }
    ensures rows_first { (history : List Command) (text before : List ℕ) (rows : List OutRow) →
        server.state ≡ starting history → S.left script.old ≡ Some text →
        K.written out.old ≡ Some before → T.rows trees.old ≡ Some rows →
        RowsComeFirst step (starting history) (lines_of text) before rows
        (K.written out.new) (T.rows trees.new) }
    ensures any_moment { (history : List Command) (text : List ℕ) →
        server.state ≡ starting history → S.left script.old ≡ Some text →
        AreAll (λ image. IsStored image history) (D.images disk.old) →
        LeavesOnly D.moment D.images_since disk.old disk.new
        (StandsForFront history (served_script history text).turns) }
    ensures acknowledged { (history : List Command) (text before bytes : List ℕ) →
        server.state ≡ starting history → S.left script.old ≡ Some text →
        AreAll (λ image. IsStored image history) (D.images disk.old) →
        K.written out.old ≡ Some before → K.written out.new ≡ Some (before ++ bytes) →
        AreAll (StandsForTold history (served_script history text).turns bytes)
        (D.images disk.new) }
    ensures unwritten { (history : List Command) (text : List ℕ) →
        server.state ≡ starting history → S.left script.old ≡ Some text →
        AddsNoCommand count (starting history) (model history text) → disk.new ≡ disk.old }
    ensures later { Later
        (counts (S.faults script.old) (K.faults out.old) (D.faults disk.old) (T.faults trees.old)
        (S.given script.old) (S.ends script.old))
        (counts (S.faults script.new) (K.faults out.new) (D.faults disk.new) (T.faults trees.new)
        (S.given script.new) (S.ends script.new)) }
    ensures left { CountsGiven (S.left script.old) (S.left script.new)
        (S.given script.old) (S.given script.new) }
    ensures stopped { StopsServing
        (counts (S.faults script.old) (K.faults out.old) (D.faults disk.old) (T.faults trees.old)
        (S.given script.old) (S.ends script.old))
        (counts (S.faults script.new) (K.faults out.new) (D.faults disk.new) (T.faults trees.new)
        (S.given script.new) (S.ends script.new)) result }
{
    match Lines::new(alloc) {
        Ok(mut lines) => {
            let ending = serve_all(&mut server, &mut lines, script, out, disk, trees);
            server.close();
            Status::from(ending)
        }
        Err(Memory) => {
            server.close();
            Status::NoMemory
        }
    }
}

// Tells how many records a store has.
fn put_checked<K: Sink>(alloc: Global, server: Server, out: &mut K) -> Status
    ensures puts { PutsLast Done (check_line server.state.history)
        (K.written out.old) (K.written out.new)
        (K.faults out.old) (K.faults out.new) result }
    ensures later { K.faults out.old ≤ K.faults out.new }
{
    let count = server.position();
    server.close();
    match check_line(alloc, count) {
        Ok(line) => put_last(line.as_slice(), Status::Done, out),
        Err(Memory) => Status::NoMemory,
    }
}
