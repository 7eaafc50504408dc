// The devices that a script comes from and that replies go to.
ghost use Rattle.std.specs.Prelude.{◌≤◌, ◌<◌, ℕ, List, Option, length, IfOk, OnOk, OnErr};
ghost use Rattle.cov_base.specs.Causes.{HasCause};
ghost use Rattle.cov_io.specs.Devices.{Reads, Unread, Gives, CountsEnd, AppendsAll, AppendsSome};

use cov_base::Failed;

/// What bytes are read from.
pub trait Source {
    /// The bytes that are left, if the source tells them.
    ghost left: { Self → Option (List ℕ) };

    /// How many bytes it gave.
    ghost given: { Self → ℕ };

    /// How often it has failed.
    ghost faults: { Self → ℕ };

    /// How many reads answered 0.
    ghost ends: { Self → ℕ };

    /// Puts some of the bytes that are left at the buffer's front, and answers how many: at least
    /// one where any are left, and 0 at the end. What else the buffer holds then is left open.
    fn read(&mut self, into: &mut [u8]) -> Result<usize, Failed>
        requires { 0 < length into.old }
        ensures bound { IfOk result (λ n. n ≤ length into.old) }
        ensures bytes { IfOk result (λ n. Reads n into.new (left self.old) (left self.new)) }
        ensures unread { OnErr result (Unread (left self.old) (left self.new)) }
        ensures given { Gives result (given self.old) (given self.new) }
        ensures ends { CountsEnd result (ends self.old) (ends self.new) }
        ensures cause { HasCause (faults self.old) (faults self.new) result };
}

/// What bytes are written to.
pub trait Sink {
    /// The bytes that were written, if the sink tells them.
    ghost written: { Self → Option (List ℕ) };

    /// How often it has failed.
    ghost faults: { Self → ℕ };

    /// Appends all the bytes, or at a failure some of the first of them.
    fn put(&mut self, bytes: &[u8]) -> Result<(), Failed>
        ensures all { OnOk result (AppendsAll bytes.now (written self.old) (written self.new)) }
        ensures some { OnErr result (AppendsSome bytes.now (written self.old) (written self.new)) }
        ensures cause { HasCause (faults self.old) (faults self.new) result };
}
