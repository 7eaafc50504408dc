// A conditional text as commits.
ghost use Rattle.std.specs.Prelude.{◌≡◌, ◌<◌, length, map, Ok, None, IfOk, IfErr};
ghost use Rattle.cov_cond.specs.Committing.{run_choice};
ghost use Rattle.cov_cond.specs.Fitting.{imported_at, imported_in, room_fault, IsImportFaultOf};
ghost use Rattle.cov_cond.specs.Importing.{first_choice};
ghost use Rattle.cov_cond_text.specs.Conditional.{runs_of, HasOptionsBelow};
ghost use Rattle.cov_dd.specs.Diagrams.{Extends};
ghost use Rattle.cov_edit.specs.History.{option_count};

mod choosing;
mod committing;
mod fitting;
mod inserting;
mod making;

use crate::ImportFault;
use choosing::{RunChoices, first_choice};
use committing::all_commits;
use cov_base::{Choice, Memory, Path};
use cov_cond_text::CondText;
use cov_edit::Commands;
use cov_engine::Engine;
use fitting::choices_with_room;
use making::making_edit;
use std::alloc::Global;

/// The commits that a conditional text is as a new file at a path: the first makes the file with the lines without conditions, on the
/// first valid choice and for all variants; each other one has the lines of one run with conditions, from the last run to the first, on the
/// first valid choice that meets them, for exactly the variants that do. A run that no valid choice meets is left out. The history stays
/// as it is. The faults come in their order, each exactly where its case holds. It takes time in the lines, for each run in the diagrams
/// of its conditions and of all constraints, once in the commands of the history, and once in the rows and lines that the engine keeps.
#[tactic(auto, using(crate::proofs::Fitted::imported_where, crate::proofs::Fitted::refused_where))]
pub fn import(
    alloc: Global,
    engine: &mut Engine,
    path: &Path,
    text: &CondText,
) -> Result<Commands, ImportFault>
    requires named { 0 < length path.now }
    requires declared { HasOptionsBelow (option_count engine.old.history) text.now }
    ensures history { engine.new.history ≡ engine.old.history }
    ensures extends { Extends engine.old.table engine.new.table }
    ensures commits { IfOk result (λ commits.
        imported_at engine.old.history path.now text.now ≡ Ok commits.commands) }
    ensures fault { IfErr result (IsImportFaultOf
        (imported_at engine.old.history path.now text.now)) }
{
    match choices_with_room(alloc, engine, text) {
        Ok(choices) => import_on(alloc, engine, path, text, &choices),
        Err(fault) => Err(fault),
    }
}

// The commits where there is room for them, each on its choice.
fn import_on(
    alloc: Global,
    engine: &mut Engine,
    path: &Path,
    text: &CondText,
    choices: &RunChoices,
) -> Result<Commands, ImportFault>
    requires named { 0 < length path.now }
    requires declared { HasOptionsBelow (option_count engine.old.history) text.now }
    requires choices { choices.now ≡ map (run_choice engine.old.history) (runs_of text.now) }
    requires room { room_fault engine.old.history text.now ≡ None }
    ensures history { engine.new.history ≡ engine.old.history }
    ensures extends { Extends engine.old.table engine.new.table }
    ensures commits { IfOk result (λ commits.
        imported_in engine.old.history path.now text.now ≡ Ok commits.commands) }
    ensures fault { IfErr result (IsImportFaultOf
        (imported_in engine.old.history path.now text.now)) }
{
    match first_choice(engine) {
        Ok(choice) => import_from(alloc, engine, choice, path, text, choices),
        Err(Memory) => Err(ImportFault::Memory),
    }
}

// The commits, of which the first is made on a choice.
fn import_from(
    alloc: Global,
    engine: &Engine,
    choice: Choice,
    path: &Path,
    text: &CondText,
    choices: &RunChoices,
) -> Result<Commands, ImportFault>
    requires named { 0 < length path.now }
    requires declared { HasOptionsBelow (option_count engine.now.history) text.now }
    requires choice { choice ≡ first_choice engine.now.history }
    requires choices { choices.now ≡ map (run_choice engine.now.history) (runs_of text.now) }
    requires room { room_fault engine.now.history text.now ≡ None }
    ensures commits { IfOk result (λ commits.
        imported_in engine.now.history path.now text.now ≡ Ok commits.commands) }
    ensures fault { IfErr result (IsImportFaultOf
        (imported_in engine.now.history path.now text.now)) }
{
    engine.history_is_legal();
    match making_edit(engine, choice, path) {
        Ok(edit) => match all_commits(alloc, engine, choice, edit, text.runs(), choices) {
            Ok(commits) => Ok(commits),
            Err(Memory) => Err(ImportFault::Memory),
        },
        Err(fault) => Err(fault),
    }
}
