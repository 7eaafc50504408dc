// Writes that are on the disk at their end.
ghost use Rattle.std.specs.Prelude.{◌≤◌, length, OnOk, IfSome};
ghost use Rattle.cov_base.specs.Causes.{HasCause};
ghost use Rattle.cov_base.specs.Texts.{Written};
ghost use Rattle.cov_disk.specs.Images.{Told, Only, LeavesOnly};
ghost use Rattle.cov_journal.specs.Moments.{IsTornFrom};

use cov_base::Failed;
use cov_disk::Disk;

/// Writes and syncs.
pub(crate) fn write_synced<D: Disk>(disk: &mut D, at: u64, bytes: &[u8]) -> Result<(), Failed>
    requires { IfSome (D.contents disk.old) (λ old. at ≤ length old) }
    ensures written { OnOk result (Told (Written at bytes.now) (D.contents disk.old)
        (D.contents disk.new)) }
    ensures durable { OnOk result (Only (D.contents disk.new) (D.images disk.new)) }
    ensures since { LeavesOnly D.moment D.images_since disk.old disk.new
        (IsTornFrom (D.images disk.old) at (length bytes.now)) }
    ensures cause { HasCause (D.faults disk.old) (D.faults disk.new) result }
{
    disk.write_at(at, bytes)?;
    disk.sync()
}
