// Whether a history has room for a conditional text.
ghost use Rattle.std.specs.Prelude.{◌≡◌, ◌<◌, ◌≤◌, ◌+◌, [], ◌∷◌, None, Some, length, map, IfOk, IfErr, IfNone, IfSome, OnOk};
ghost use Rattle.std.specs.List.{AllByRecursion};
ghost use Rattle.cov_cond.specs.Committing.{growth_fault, run_bytes, run_choice, text_bytes, text_count, text_fault, IsFaultBy};
ghost use Rattle.cov_cond.specs.Fitting.{room_fault};
ghost use Rattle.cov_cond.specs.Importing.{run_commits};
ghost use Rattle.cov_cond_text.specs.Conditional.{conjunction, runs_of, AreRuns, HasOptionsBelow};
ghost use Rattle.cov_dd.specs.Diagrams.{Extends};
ghost use Rattle.cov_edit.specs.History.{option_count};
ghost use Rattle.cov_edit.specs.Limits.{is_upgraded, limits_of};
ghost use Rattle.cov_expr.specs.Formula.{reach};

use super::choosing::{RunChoices, choice_count, run_choices};
use crate::ImportFault;
use cov_base::{LIMITS, Limits, Memory, Position, Text, limits_when};
use cov_cond_text::{CondText, Run};
use cov_edit::Command;
use cov_engine::Engine;
use std::alloc::Global;

/// The choice of each run, unless a limit leaves no room for the commits. The limits come in their order.
#[tactic(auto, using(crate::proofs::Fitted::room_growth, crate::proofs::Fitted::fault_texts))]
pub(crate) fn choices_with_room(
    alloc: Global,
    engine: &mut Engine,
    text: &CondText,
) -> Result<RunChoices, ImportFault>
    requires declared { HasOptionsBelow (option_count engine.old.history) text.now }
    ensures history { engine.new.history ≡ engine.old.history }
    ensures extends { Extends engine.old.table engine.new.table }
    ensures choices { IfOk result (λ choices.
        choices ≡ map (run_choice engine.old.history) (runs_of text.now)) }
    ensures room { OnOk result (room_fault engine.old.history text.now ≡ None) }
    ensures fault { IfErr result (IsFaultBy (room_fault engine.old.history text.now)) }
{
    let runs = text.runs();
    match fitting_texts(engine, runs) {
        Ok(texts) => choices_within(alloc, engine, runs, texts),
        Err(fault) => Err(fault),
    }
}

// How many texts runs have, unless a limit on texts leaves no room for them.
fn fitting_texts(engine: &Engine, runs: &[Run]) -> Result<usize, ImportFault>
    ensures count { IfOk result (λ count. count ≡ text_count runs.now) }
    ensures few { IfOk result (λ count. count < LIMITS.edits) }
    ensures room { OnOk result (text_fault engine.now.history runs.now ≡ None) }
    ensures fault { IfErr result (λ fault.
        text_fault engine.now.history runs.now ≡ Some fault) }
{
    let Some(texts) = text_count(runs) else {
        return Err(ImportFault::TooManyEdits);
    };
    let Some(bytes) = run_bytes(runs) else {
        return Err(ImportFault::TooManyBytes);
    };
    if engine.counts().bytes.saturating_add(bytes) > LIMITS.bytes {
        return Err(ImportFault::TooManyBytes);
    }
    Ok(texts)
}

// How many texts runs have, None exactly where a commit can't insert so many besides making their file.
fn text_count(runs: &[Run]) -> Option<usize>
    ensures count { IfSome result (λ count. count ≡ text_count runs.now) }
    ensures few { IfSome result (λ count. count < LIMITS.edits) }
    ensures none { IfNone result (LIMITS.edits ≤ text_count runs.now) }
{
    let mut count = 0;
    let mut ahead = runs;
    while let [run, rest @ ..] = ahead {
        let more = run.texts.as_slice().len();
        if more >= LIMITS.edits - count {
            return None;
        }
        count += more;
        ahead = rest;
    }
    Some(count)
}

// The bytes of the texts of runs, None exactly where a commit can't insert so many.
fn run_bytes(runs: &[Run]) -> Option<u64>
    ensures bytes { IfSome result (λ bytes. bytes ≡ run_bytes runs.now) }
    ensures few { IfSome result (λ bytes. bytes ≤ LIMITS.commit_bytes) }
    ensures none { IfNone result (LIMITS.commit_bytes < run_bytes runs.now) }
{
    let mut bytes = 0;
    let mut ahead = runs;
    while let [run, rest @ ..] = ahead {
        match bytes_with(bytes, run.texts.as_slice()) {
            Some(more) => bytes = more,
            None => return None,
        }
        ahead = rest;
    }
    Some(bytes)
}

// The bytes of texts and so many before them, None exactly where a commit can't insert so many.
fn bytes_with(before: u64, texts: &[Text]) -> Option<u64>
    requires { before ≤ LIMITS.commit_bytes }
    ensures bytes { IfSome result (λ bytes. bytes ≡ before + text_bytes texts.now) }
    ensures few { IfSome result (λ bytes. bytes ≤ LIMITS.commit_bytes) }
    ensures none { IfNone result (LIMITS.commit_bytes < before + text_bytes texts.now) }
{
    let mut bytes = before;
    let mut ahead = texts;
    while let [text, rest @ ..] = ahead {
        let more = text.len() as u64;
        if more > LIMITS.commit_bytes - bytes {
            return None;
        }
        bytes += more;
        ahead = rest;
    }
    Some(bytes)
}

// The choice of each run, unless the history has no room for so many commits or texts.
#[tactic(auto, using(crate::proofs::RunFacts::commits_counted, crate::proofs::RunFacts::few_choices))]
fn choices_within(
    alloc: Global,
    engine: &mut Engine,
    runs: &[Run],
    texts: usize,
) -> Result<RunChoices, ImportFault>
    requires declared { AllByRecursion (λ r. reach (conjunction r.conditions) ≤
        option_count engine.old.history) runs.now }
    requires are { AreRuns runs.now }
    requires texts { texts ≡ text_count runs.now }
    requires few { texts < LIMITS.edits }
    ensures history { engine.new.history ≡ engine.old.history }
    ensures extends { Extends engine.old.table engine.new.table }
    ensures choices { IfOk result (λ choices.
        choices ≡ map (run_choice engine.old.history) runs.now) }
    ensures room { OnOk result (growth_fault engine.old.history
        (length (run_commits engine.old.history 0 runs.now) + 1) texts ≡ None) }
    ensures fault { IfErr result (IsFaultBy (growth_fault engine.old.history
        (length (run_commits engine.old.history 0 runs.now) + 1) texts)) }
{
    match run_choices(alloc, engine, runs) {
        Ok(choices) => match growth_fault(engine, choice_count(choices.as_slice()) + 1, texts) {
            None => Ok(choices),
            Some(fault) => Err(fault),
        },
        Err(Memory) => Err(ImportFault::Memory),
    }
}

// The first limit that a history would break with so many commits and texts more.
fn growth_fault(engine: &Engine, commits: usize, texts: usize) -> Option<ImportFault>
    requires commits { commits ≤ LIMITS.edits }
    requires texts { texts < LIMITS.edits }
    ensures { result ≡ growth_fault engine.now.history commits texts }
{
    if engine.position().number() as usize + commits > LIMITS.commands {
        return Some(ImportFault::Full);
    }
    if engine.counts().lines as u64 + texts as u64 > limits_now(engine).lines {
        return Some(ImportFault::TooManyLines);
    }
    None
}

// The limits that hold now. It takes time in the commands.
fn limits_now(engine: &Engine) -> Limits
    ensures { result ≡ limits_of engine.now.history }
{
    limits_when(is_upgraded(engine))
}

// Whether a history has an upgrade.
fn is_upgraded(engine: &Engine) -> bool
    ensures { result ≡ is_upgraded engine.now.history }
{
    let last = engine.position().number();
    let mut before = 0;
    while before < last {
        if is_upgrade(engine.command(Position::new(before + 1))) {
            return true;
        }
        before += 1;
    }
    false
}

fn is_upgrade(command: &Command) -> bool
    ensures { result ≡ is_upgraded (command.now ∷ []) }
{
    match command {
        Command::Upgrade => true,
        Command::Option { .. }
        | Command::Constraint { .. }
        | Command::Prefer { .. }
        | Command::Default { .. }
        | Command::Commit { .. } => false,
    }
}
