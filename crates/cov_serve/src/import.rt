// A conditional text, as it is added to a store that was opened.
ghost use Rattle.std.specs.Prelude.{◌≡◌, ◌≤◌, ◌<◌, ◌*◌, ◌++◌, List, ℕ, Some, [], IfOk, IfSome, length};
ghost use Rattle.cov_base.specs.declared.limits.TheConstants.{LIMITS, TOO_MANY_SCRIPT_BYTES};
ghost use Rattle.cov_disk.specs.Images.{LeavesOnly};
ghost use Rattle.cov_edit.specs.History.{option_count, options_of};
ghost use Rattle.cov_edit.specs.declared.command.Command.{Command};
ghost use Rattle.cov_history.specs.Verdict.{IsLegalFrom};
ghost use Rattle.cov_io.specs.Progress.{CountsGiven};
ghost use Rattle.cov_journal.specs.Gates.{HasGate};
ghost use Rattle.cov_lines.specs.States.{starting};
ghost use Rattle.cov_loop.specs.Counts.{counts};
ghost use Rattle.cov_loop.specs.Keeping.{AreAll};
ghost use Rattle.cov_loop.specs.Turns.{WritesFront};
ghost use Rattle.cov_serve.specs.Jobs.{IsNewPath, StandsForFront, StandsForTold, commit_turns, history_after, replies, served_import, served_status};
ghost use Rattle.cov_serve.specs.Program.{OnServed, StopCanBeTold, StopsAdding, StopsServing, TellsStop, commit_text};
ghost use Rattle.cov_serve.specs.Statuses.{added_status};
ghost use Rattle.cov_serve.specs.declared.status.Status.TheVariants.{NoMemory};
ghost use Rattle.cov_store.specs.Stands.{StandsFor, IsStored, gate_of};

use crate::last_line::{put_last, refused_line};
use crate::status::Status;
use crate::text_serving::{is_end, serve_text};
use crate::text_source::NoTrees;
use cov_base::{Memory, Path, Text};
use cov_codes::Stop;
use cov_disk::Disk;
use cov_edit::Commands;
use cov_import::{ImportServer, read_source, take_in};
use cov_io::{Sink, Source};
use cov_lines::Server;
use cov_loop::Ending;
use std::alloc::Global;

/// Reads a source to its end as a conditional text, and adds it to a store that was opened as a new file at a path, commit after commit; or
/// tells in one line why it can't be, and then adds none.
pub(crate) fn serve_import<S: Source, K: Sink, D: Disk>(
    alloc: Global,
    server: Server,
    path: &Path,
    script: &mut S,
    out: &mut K,
    disk: &mut D,
) -> Status
    requires gate { HasGate (D.contents disk.old) (gate_of server.state.history) }
    requires named { IsNewPath path.now }
    ensures ended { (history : List Command) (text : List ℕ) →
        server.state ≡ starting history → S.left script.old ≡ Some text →
        OnServed result (λ refused.
        ((served_import history path.now text).status ≡ served_status refused)
        × (S.left script.new ≡ Some [])) }
    ensures front { (history : List Command) (text before : List ℕ) →
        server.state ≡ starting history → S.left script.old ≡ Some text →
        K.written out.old ≡ Some before →
        WritesFront before (replies (served_import history path.now text).turns)
        (K.written out.new) }
    ensures whole { (history : List Command) (text before : List ℕ) →
        server.state ≡ starting history → S.left script.old ≡ Some text →
        K.written out.old ≡ Some before →
        OnServed result (λ refused.
        K.written out.new ≡ Some (before ++ replies (served_import history path.now text).turns)) }
    ensures stands { (history : List Command) (text : List ℕ) →
        server.state ≡ starting history → S.left script.old ≡ Some text →
        IfSome (D.contents disk.old) (λ image. IsStored image history) →
        OnServed result (λ refused. IfSome (D.contents disk.new) (λ image.
        StandsFor image (history_after history (served_import history path.now text).turns))) }
    ensures any_moment { (history : List Command) (text : List ℕ) →
        server.state ≡ starting history → S.left script.old ≡ Some text →
        AreAll (λ image. IsStored image history) (D.images disk.old) →
        LeavesOnly D.moment D.images_since disk.old disk.new
        (StandsForFront history (served_import history path.now text).turns) }
    ensures acknowledged { (history : List Command) (text before bytes : List ℕ) →
        server.state ≡ starting history → S.left script.old ≡ Some text →
        AreAll (λ image. IsStored image history) (D.images disk.old) →
        K.written out.old ≡ Some before → K.written out.new ≡ Some (before ++ bytes) →
        AreAll (StandsForTold history (served_import history path.now text).turns bytes)
        (D.images disk.new) }
    ensures unwritten { (history : List Command) (text : List ℕ) →
        server.state ≡ starting history → S.left script.old ≡ Some text →
        length (history_after history (served_import history path.now text).turns) ≤
        length history → disk.new ≡ disk.old }
    ensures stopped { (trees : ℕ) → StopsServing
        (counts (S.faults script.old) (K.faults out.old) (D.faults disk.old) trees
        (S.given script.old) (S.ends script.old))
        (counts (S.faults script.new) (K.faults out.new) (D.faults disk.new) trees
        (S.given script.new) (S.ends script.new)) result }
    ensures left { CountsGiven (S.left script.old) (S.left script.new)
        (S.given script.old) (S.given script.new) }
    ensures source_later { S.faults script.old ≤ S.faults script.new }
    ensures later { K.faults out.old ≤ K.faults out.new }
    ensures disk_later { D.faults disk.old ≤ D.faults disk.new }
{
    match read_source(alloc, script) {
        Ok(lines) => {
            let (server, taken) = take_in(alloc, server, path, lines);
            match taken {
                Ok(commits) => add_commits(alloc, server, commits, out, disk),
                Err(stop) => tell_stop(alloc, server, &stop, out),
            }
        }
        Err(fault) => {
            server.close();
            Status::from(fault)
        }
    }
}

// Tells why a text isn't taken in, unless memory is wanting.
fn tell_stop<K: Sink>(alloc: Global, server: Server, stop: &Stop, out: &mut K) -> Status
    requires { StopCanBeTold (option_count server.state.history) stop.now }
    ensures tells { TellsStop (options_of server.state.history) stop.now
        (K.written out.old) (K.written out.new) (K.faults out.old) (K.faults out.new) result }
    ensures later { K.faults out.old ≤ K.faults out.new }
{
    let line = refused_line(alloc, server.options(), stop);
    server.close();
    match line {
        Ok(line) => put_last(line.as_slice(), Status::SomeRefused, out),
        Err(Memory) => Status::NoMemory,
    }
}

// Adds commits, each of which the history accepts behind those before it, and replies to each.
fn add_commits<K: Sink, D: Disk>(
    alloc: Global,
    server: Server,
    commits: Commands,
    out: &mut K,
    disk: &mut D,
) -> Status
    requires gate { HasGate (D.contents disk.old) (gate_of server.state.history) }
    requires accepted { IsLegalFrom server.state.history commits.commands }
    requires few { length commits.commands ≤ LIMITS.commands }
    ensures front { (history : List Command) (before : List ℕ) →
        server.state ≡ starting history → K.written out.old ≡ Some before →
        WritesFront before (replies (commit_turns history commits.commands)) (K.written out.new) }
    ensures whole { (history : List Command) (before : List ℕ) →
        server.state ≡ starting history → K.written out.old ≡ Some before →
        OnServed result (λ refused.
        K.written out.new ≡ Some (before ++ replies (commit_turns history commits.commands))) }
    ensures stands { (history : List Command) → server.state ≡ starting history →
        IfSome (D.contents disk.old) (λ image. IsStored image history) →
        OnServed result (λ refused. IfSome (D.contents disk.new) (λ image.
        StandsFor image (history_after history (commit_turns history commits.commands)))) }
    ensures any_moment { (history : List Command) → server.state ≡ starting history →
        AreAll (λ image. IsStored image history) (D.images disk.old) →
        LeavesOnly D.moment D.images_since disk.old disk.new
        (StandsForFront history (commit_turns history commits.commands)) }
    ensures acknowledged { (history : List Command) (before bytes : List ℕ) →
        server.state ≡ starting history →
        AreAll (λ image. IsStored image history) (D.images disk.old) →
        K.written out.old ≡ Some before → K.written out.new ≡ Some (before ++ bytes) →
        AreAll (StandsForTold history (commit_turns history commits.commands) bytes)
        (D.images disk.new) }
    ensures unwritten { (history : List Command) → server.state ≡ starting history →
        length (history_after history (commit_turns history commits.commands)) ≤ length history →
        disk.new ≡ disk.old }
    ensures stopped { StopsAdding result (K.faults out.old) (K.faults out.new)
        (D.faults disk.old) (D.faults disk.new) }
    ensures later { K.faults out.old ≤ K.faults out.new }
    ensures disk_later { D.faults disk.old ≤ D.faults disk.new }
{
    match commit_text(alloc, commits.len()) {
        Ok(text) => {
            let mut trees = NoTrees {};
            let mut import = ImportServer::new(alloc, server, commits);
            let ending = serve_text(alloc, &mut import, text, out, disk, &mut trees);
            import.close();
            added_status(ending)
        }
        Err(Memory) => {
            server.close();
            give_up(commits)
        }
    }
}

fn give_up(_commits: Commands) -> Status
    ensures { result ≡ NoMemory }
{
    Status::NoMemory
}

// How a run ends whose commits were added.
fn added_status(ending: Ending) -> Status
    ensures { result ≡ added_status ending }
{
    if is_end(ending) {
        return Status::Done;
    }
    Status::from(ending)
}

// A text of lines that ask for so many commits.
fn commit_text(alloc: Global, count: usize) -> Result<Text, Memory>
    requires { count ≤ LIMITS.commands }
    ensures text { IfOk result (λ text. text ≡ commit_text count) }
    ensures short { IfOk result (λ text. length text < TOO_MANY_SCRIPT_BYTES) }
{
    let mut text = Text::new(alloc);
    let mut left = count;
    'lines: while left > 0 {
        text.append(b"x\n")?;
        left -= 1;
    }
    Ok(text)
}
