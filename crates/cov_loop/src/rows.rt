// Rows that are written to trees.
ghost use Rattle.std.specs.Prelude.{◌≡◌, OnOk, OnErr};
ghost use Rattle.cov_base.specs.Causes.{HasCause};
ghost use Rattle.cov_io.specs.Devices.{AppendsAll, AppendsSome};
ghost use Rattle.cov_out.specs.Rows.{AddsRow};

use cov_base::Failed;
use cov_out::{OutRow, OutRows, Trees};

/// Writes rows in order, one call each, up to the first call that fails.
pub(crate) fn put_rows<T: Trees>(rows: &OutRows, trees: &mut T) -> Result<(), Failed>
    ensures all { OnOk result (AppendsAll rows.now (T.rows trees.old) (T.rows trees.new)) }
    ensures some { OnErr result (AppendsSome rows.now (T.rows trees.old) (T.rows trees.new)) }
    ensures cause { HasCause (T.faults trees.old) (T.faults trees.new) result }
{
    'rows: for row in rows.as_slice() {
        put_row(row, trees)?;
    }
    Ok(())
}

fn put_row<T: Trees>(row: &OutRow, trees: &mut T) -> Result<(), Failed>
    ensures row { OnOk result (AddsRow row.now (T.rows trees.old) (T.rows trees.new)) }
    ensures none { OnErr result (T.rows trees.new ≡ T.rows trees.old) }
    ensures cause { HasCause (T.faults trees.old) (T.faults trees.new) result }
{
    match &row.bytes {
        Some(bytes) => trees.put_file(row.path.as_slice(), bytes.as_slice()),
        None => trees.make_dir(row.path.as_slice()),
    }
}
