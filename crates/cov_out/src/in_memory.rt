// Trees in memory, of which each row can be told.
ghost use Rattle.std.specs.Prelude.{◌≡◌, [], ◌∷◌, ◌++◌, Some, None, IfOk, OnOk, OnErr};
ghost use Rattle.std.specs.Option.{option_map};
ghost use Rattle.cov_base.specs.Causes.{HasCause};
ghost use Rattle.cov_out.specs.InMemory.{Adds, FailsToAdd};
ghost use Rattle.cov_out.specs.Rows.{AddsRow, dir_row, file_row, out_row};

use crate::{OutRow, OutRows, Trees};
use cov_base::{Failed, Memory, Numbers, Text};
use cov_io::Calls;
use std::alloc::Global;
use std::marker::Model;

/// Trees that keep their rows. Their calls are numbered from 1; those whose numbers are listed fail, and those that find no memory.
#[derive(Debug, Drop)]
pub struct MemoryTrees {
    rows: OutRows,
    calls: Calls,
}

impl Model for MemoryTrees {
    ghost use Rattle.std.specs.Prelude.{◌≡◌, None};
    ghost use Rattle.cov_out.specs.InMemory.{TreesState};

    ghost Value = { TreesState };

    ghost view = { λ t. record {
      rows = t.rows;
      fail = t.calls.fail;
      calls = t.calls.calls;
      faults = t.calls.faults;
      starved = t.calls.starved;
    } };

    ghost invariant = { λ t. t.calls.fuse ≡ None };
}

impl MemoryTrees {
    pub fn new(alloc: Global, fail: Numbers) -> MemoryTrees
        ensures { result ≡ record {
          rows = [];
          fail = fail;
          calls = 0;
          faults = 0;
          starved = 0;
        } }
    {
        MemoryTrees {
            rows: OutRows::new(alloc),
            calls: Calls::new(fail, None),
        }
    }

    /// What was written, in order.
    pub fn rows(&self) -> &OutRows
        ensures { result.now ≡ self.now.rows }
    {
        &self.rows
    }

    /// How many calls found no memory.
    pub fn starved(&self) -> u64
        ensures { result ≡ self.now.starved }
    {
        self.calls.starved()
    }

    // Adds the row of a directory, or of a file where there are bytes.
    fn add(&mut self, path: &[u8], bytes: Option<&[u8]>) -> Result<(), Failed>
        ensures ok { OnOk result (Adds (out_row path.now (option_map (λ b. b.now) bytes.entry))
            self.old self.new) }
        ensures err { OnErr result (FailsToAdd self.old self.new) }
        ensures cause { HasCause self.old.faults self.new.faults result }
    {
        if self.calls.next_fails() {
            self.calls.fail();
            return Err(Failed);
        }
        match push_row(&mut self.rows, path, bytes) {
            Ok(()) => Ok(()),
            Err(Memory) => {
                self.calls.starve();
                Err(Failed)
            }
        }
    }
}

impl Trees for MemoryTrees {
    ghost rows = { λ t. Some t.rows };

    ghost faults = { λ t. t.faults };

    fn make_dir(&mut self, path: &[u8]) -> Result<(), Failed>
        // As all trees.
        ensures row { OnOk result (AddsRow (dir_row path.now) (Some self.old.rows)
            (Some self.new.rows)) }
        ensures none { OnErr result (Some self.new.rows ≡ Some self.old.rows) }
        ensures cause { HasCause self.old.faults self.new.faults result }

        // In memory.
        ensures ok { OnOk result (Adds (dir_row path.now) self.old self.new) }
        ensures err { OnErr result (FailsToAdd self.old self.new) }
    {
        self.add(path, None)
    }

    fn put_file(&mut self, path: &[u8], bytes: &[u8]) -> Result<(), Failed>
        // As all trees.
        ensures row { OnOk result (AddsRow (file_row path.now bytes.now) (Some self.old.rows)
            (Some self.new.rows)) }
        ensures none { OnErr result (Some self.new.rows ≡ Some self.old.rows) }
        ensures cause { HasCause self.old.faults self.new.faults result }

        // In memory.
        ensures ok { OnOk result (Adds (file_row path.now bytes.now) self.old self.new) }
        ensures err { OnErr result (FailsToAdd self.old self.new) }
    {
        self.add(path, Some(bytes))
    }
}

fn push_row(rows: &mut OutRows, path: &[u8], bytes: Option<&[u8]>) -> Result<(), Memory>
    ensures ok { OnOk result (rows.new ≡
        rows.old ++ out_row path.now (option_map (λ b. b.now) bytes.entry) ∷ []) }
    ensures err { OnErr result (rows.new ≡ rows.old) }
{
    let row = row(rows.allocator(), path, bytes)?;
    rows.push(row)
}

fn row(alloc: Global, path: &[u8], bytes: Option<&[u8]>) -> Result<OutRow, Memory>
    ensures { IfOk result (λ row. row ≡ out_row path.now (option_map (λ b. b.now) bytes.entry)) }
{
    let path = Text::from_slice(alloc, path)?;
    let bytes = match bytes {
        Some(bytes) => Some(Text::from_slice(alloc, bytes)?),
        None => None,
    };
    Ok(OutRow { path, bytes })
}
