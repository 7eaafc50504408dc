// Lists of runs, small where there is none.
ghost use Rattle.std.specs.Prelude.{◌≡◌, ◌-◌, [], ◌∷◌, ◌++◌, length, take, IfOk, OnOk, OnErr};

use crate::edits::Run;
use cov_base::Memory;
use std::alloc::Global;
use std::marker::Model;

/// A list of runs behind one pointer, so that a list of edits without them is small. It takes no memory before the first run.
#[derive(Debug, Drop)]
pub(crate) struct RunList {
    kept: Option<Box<Vec<Run>>>,
}

impl Model for RunList {
    ghost use Rattle.std.specs.Prelude.{List, []};
    ghost use Rattle.std.specs.Option.{option_map_or};
    ghost use Rattle.std.specs.Coded.{codes};
    ghost use Rattle.cov_edit.specs.contracts.edits.Run as row;
    ghost use Rattle.cov_edit.specs.declared.edits.Run.{Run};

    ghost Value = { List Run };

    ghost coded = { Prim.hlevel (codes, row.the_row.coded) };

    ghost view = { λ l. option_map_or (λ kept. kept.value.items) l.kept [] };
}

impl RunList {
    pub(crate) fn new() -> RunList
        ensures { result ≡ [] }
    {
        RunList { kept: None }
    }

    pub(crate) fn as_slice(&self) -> &[Run]
        ensures { result.now ≡ self.now }
    {
        match &self.kept {
            Some(runs) => runs.as_slice(),
            None => &[],
        }
    }

    /// Appends a run.
    pub(crate) fn push(&mut self, alloc: Global, run: Run) -> Result<(), Memory>
        ensures ok { OnOk result (self.new ≡ self.old ++ run ∷ []) }
        ensures err { OnErr result (self.new ≡ self.old) }
    {
        match &mut self.kept {
            Some(runs) => runs.push(run)?,
            None => {
                let mut runs = Vec::new(alloc);
                runs.push(run)?;
                self.kept = Some(Box::new(alloc, runs)?);
            }
        }
        Ok(())
    }

    /// Takes the last run away, if there is one.
    pub(crate) fn pop(&mut self)
        ensures { self.new ≡ take (length self.old - 1) self.old }
    {
        if let Some(runs) = &mut self.kept {
            runs.pop();
        }
    }

    /// The same runs, in memory of their own.
    pub(crate) fn copy(&self, alloc: Global) -> Result<RunList, Memory>
        ensures { IfOk result (λ list. list ≡ self.now) }
    {
        let runs = self.as_slice();
        if runs.is_empty() {
            return Ok(RunList::new());
        }
        let copies = copied_runs(alloc, runs)?;
        Ok(RunList {
            kept: Some(Box::new(alloc, copies)?),
        })
    }
}

// The same runs.
fn copied_runs(alloc: Global, runs: &[Run]) -> Result<Vec<Run>, Memory>
    ensures { IfOk result (λ copies. copies.items ≡ runs.now) }
{
    let mut copies = Vec::new(alloc);
    'runs: for run in runs {
        copies.push(Run {
            side: run.side.copy(alloc)?,
            first: run.first,
        })?;
    }
    Ok(copies)
}
