// Faults of reading both sides.
ghost use Rattle.std.specs.Prelude.{◌≡◌};
ghost use Rattle.cov_alt.specs.Faults.{by_file};

use cov_base::Memory;
use cov_engine::FileFault;

/// Why both sides of an option aren't told, or want of memory.
#[derive(Clone, Copy, Debug, PartialEq, Eq)]
pub enum AltFault {
    /// The side with the option on, or off, is invalid: the first constraint, from 1, that is false there.
    SideInvalid { on: bool, rule: u32 },
    /// In the given choice nothing is at the path.
    NoSuchPath,
    /// In the given choice a directory is at the path.
    NotFile,
    Memory,
}

impl From<Memory> for AltFault {
    ghost use Rattle.cov_alt.specs.declared.fault.AltFault.TheVariants.{Memory as wanting};

    ghost from_gives = { λ _ fault. fault ≡ wanting };

    fn from(_: Memory) -> Self {
        AltFault::Memory
    }
}

impl From<FileFault> for AltFault {
    ghost from_gives = { λ fault own. own ≡ by_file fault };

    fn from(fault: FileFault) -> Self {
        match fault {
            FileFault::NoSuchPath => AltFault::NoSuchPath,
            FileFault::NotFile => AltFault::NotFile,
        }
    }
}
