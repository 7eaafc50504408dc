// What trees are written to.
ghost use Rattle.std.specs.Prelude.{◌≡◌, ℕ, List, Option, OnOk, OnErr};
ghost use Rattle.cov_base.specs.Causes.{HasCause};
ghost use Rattle.cov_out.specs.Rows.{AddsRow, dir_row, file_row};
ghost use Rattle.cov_out.specs.declared.row.OutRow.{OutRow};

use cov_base::Failed;

/// What directories and files are written to. A path is one or more names with a slash between two, as `tree/src/main`. Each call
/// that succeeds adds one row, and one that fails adds none.
pub trait Trees {
    /// The rows that were written, if they are told.
    ghost rows: { Self → Option (List OutRow) };

    /// How often a call has failed.
    ghost faults: { Self → ℕ };

    /// Makes a directory.
    fn make_dir(&mut self, path: &[u8]) -> Result<(), Failed>
        ensures row { OnOk result (AddsRow (dir_row path.now) (rows self.old) (rows self.new)) }
        ensures none { OnErr result (rows self.new ≡ rows self.old) }
        ensures cause { HasCause (faults self.old) (faults self.new) result };

    /// Writes a file of these bytes.
    fn put_file(&mut self, path: &[u8], bytes: &[u8]) -> Result<(), Failed>
        ensures row { OnOk result (AddsRow (file_row path.now bytes.now) (rows self.old)
            (rows self.new)) }
        ensures none { OnErr result (rows self.new ≡ rows self.old) }
        ensures cause { HasCause (faults self.old) (faults self.new) result };
}
