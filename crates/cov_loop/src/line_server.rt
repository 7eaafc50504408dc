// What serves one line after another.
ghost use Rattle.std.specs.Prelude.{◌≡◌, ◌≢◌, ◌⊎◌, ◌<◌, ◌≤◌, ℕ, List, [], true, length, IfOk, OnOk, IfErr, IfSome};
ghost use Rattle.cov_base.specs.Causes.{Rose};
ghost use Rattle.cov_base.specs.declared.limits.TheConstants.{MOST_SCRIPT_LINE_BYTES};
ghost use Rattle.cov_disk.specs.Images.{LeavesOnly};
ghost use Rattle.cov_loop.specs.Answers.{Gives, StopsAnswer, is_passed_over};
ghost use Rattle.cov_loop.specs.Keeping.{AddsNoCommand, AreAll, IsEither};
ghost use Rattle.cov_loop.specs.Outcome.{Outcome, unchanged};

use crate::answer::Reply;
use crate::ending::Ending;
use cov_base::Memory;
use cov_disk::Disk;

/// What serves one line after another. Each line changes the state that the next one meets, and what the state keeps for a later
/// run is stored on a disk before the line is answered.
pub trait LineServer: Sized {
    /// What a line is answered by and changes.
    ghost State: { Type 0 };

    /// The state of a server.
    ghost state_of: { Self → State };

    /// What a line does: the state after it, its reply, the rows that it writes, and whether it is refused.
    ghost step: { State → List ℕ → Outcome State };

    /// These bytes are stored for the state.
    ghost stored: { State → List ℕ → Type 0 };

    /// What the state asks of the bytes of a disk, that a line can be answered over it.
    ghost gate: { State → List ℕ → Type 0 };

    /// How many commands the state keeps for a later run.
    ghost count: { State → ℕ };

    /// What holds of a server before a line and after it beside what is said of their states.
    ghost goes_on: { Self → Self → Type 0 };

    /// Does what a line says, stores what it adds, and makes its reply. A line that adds no command leaves the disk as it is, at an `Err`
    /// too, and unless the disk fails, one that adds a command leaves it so or has it stored. At an `Err` the server is to be given up:
    /// nothing more is said of it.
    fn answer<D: Disk>(&mut self, line: &[u8], disk: &mut D) -> Result<Reply, Ending>
        requires { IfSome (D.contents disk.old) (gate (state_of self.old)) }
        ensures gives { IfOk result
            (Gives (step (state_of self.old) line.now) (state_of self.new)) }
        ensures goes_on { OnOk result (goes_on self.old self.new) }
        ensures gate { OnOk result (IfSome (D.contents disk.new) (gate (state_of self.new))) }
        ensures stored { IfSome (D.contents disk.old) (stored (state_of self.old)) →
            OnOk result (IfSome (D.contents disk.new) (stored (state_of self.new))) }
        ensures any_moment { AreAll (stored (state_of self.old)) (D.images disk.old) →
            LeavesOnly D.moment D.images_since disk.old disk.new
            (IsEither (stored (state_of self.old))
            (stored (step (state_of self.old) line.now).state)) }
        ensures durable { AreAll (stored (state_of self.old)) (D.images disk.old) →
            OnOk result (AreAll (stored (state_of self.new)) (D.images disk.new)) }
        ensures unwritten { AddsNoCommand count (state_of self.old)
            (step (state_of self.old) line.now) → disk.new ≡ disk.old }
        ensures settled { AreAll (stored (state_of self.old)) (D.images disk.old) →
            Rose (D.faults disk.old) (D.faults disk.new) ⊎ (disk.new ≡ disk.old)
            ⊎ AreAll (stored (step (state_of self.old) line.now).state) (D.images disk.new) }
        ensures stopped { IfErr result (λ ending.
            StopsAnswer ending (D.faults disk.old) (D.faults disk.new)) }
        ensures later { D.faults disk.old ≤ D.faults disk.new };

    /// The answer to a line of more than `MOST_SCRIPT_LINE_BYTES`, which was skipped: whatever it holds, the answer is one.
    fn answer_long(&mut self) -> Result<Reply, Memory>
        ensures gives { (line : List ℕ) → MOST_SCRIPT_LINE_BYTES < length line →
            IfOk result (Gives (step (state_of self.old) line) (state_of self.new)) }
        ensures goes_on { OnOk result (goes_on self.old self.new) };

    /// A line that is refused has a reply.
    ghost refusal_told: { (state : State) (line : List ℕ) → (step state line).is_refused ≡ true →
        (step state line).reply ≢ [] };

    /// A line that is refused changes nothing.
    ghost refused_kept: { (state : State) (line : List ℕ) → (step state line).is_refused ≡ true →
        (step state line).state ≡ state };

    /// A line without a reply writes no row.
    ghost rows_told: { (state : State) (line : List ℕ) → (step state line).reply ≡ [] →
        (step state line).rows ≡ [] };

    /// A line of more than `MOST_SCRIPT_LINE_BYTES` changes nothing.
    ghost long_kept: { (state : State) (line : List ℕ) → MOST_SCRIPT_LINE_BYTES < length line →
        (step state line).state ≡ state };

    /// An empty line or a comment does nothing, unless it has more than `MOST_SCRIPT_LINE_BYTES`.
    ghost silent_kept: { (state : State) (line : List ℕ) →
        is_passed_over line ≡ true → step state line ≡ unchanged state };

    /// A line without a reply adds no command.
    ghost commands_told: { (state : State) (line : List ℕ) → (step state line).reply ≡ [] →
        count (step state line).state ≤ count state };

    /// What is stored stays so after a line without a reply.
    ghost stored_told: { (state : State) (line bytes : List ℕ) → (step state line).reply ≡ [] →
        stored state bytes → stored (step state line).state bytes };

    /// No line takes a command away.
    ghost counts_rise: { (state : State) (line : List ℕ) →
        count state ≤ count (step state line).state };

    /// A server that isn't asked goes on as it is.
    ghost goes_on_same: { (server : Self) → goes_on server server };
}
