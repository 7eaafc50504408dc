// The commits of runs.
ghost use Rattle.std.specs.Prelude.{◌≡◌, ◌<◌, ◌≤◌, ◌+◌, ◌^◌, ◌++◌, ◌∷◌, [], true, length, map, IfOk, OnOk};
ghost use Rattle.std.specs.List.{list_all, AllByRecursion};
ghost use Rattle.cov_base.specs.Spelling.{is_line_text};
ghost use Rattle.cov_base.specs.declared.limits.TheConstants.{CHOICE_WIDTH};
ghost use Rattle.cov_base.specs.declared.number.LineRef.TheVariants.{Old as OldLine};
ghost use Rattle.cov_base.specs.declared.number.NodeRef.TheVariants.{New as NewNode, Old as OldNode};
ghost use Rattle.cov_cond.specs.Committing.{commit_of, commits_after, run_choice, text_count};
ghost use Rattle.cov_cond.specs.Importing.{anchor_at, chained, meant_for_all, plain_texts, run_commits};
ghost use Rattle.cov_cond_text.specs.Conditional.{conjunction, AreRuns};
ghost use Rattle.cov_edit.specs.EditFits.{has_line_text};
ghost use Rattle.cov_edit.specs.Numbering.{line_count, node_count};
ghost use Rattle.cov_edit.specs.declared.command.Command.TheVariants as commands;
ghost use Rattle.cov_expr.specs.Formula.{True, reach};

use super::choosing::{RunChoices, everywhere};
use super::inserting::{insert_plain, insert_texts, plain_count, push_for_all};
use cov_base::{Choice, LIMITS, LineNo, LineRef, Memory, NodeNo, NodeRef, Position, Text};
use cov_cond_text::Run;
use cov_edit::{Command, Commands, Edit, Edits};
use cov_engine::Engine;
use std::alloc::Global;

/// Where the commits of a conditional text come to stand.
#[derive(Clone, Copy)]
struct Place {
    /// The length of the history before them.
    base: u32,
    /// The number of the file that the first of them makes.
    file: NodeNo,
    /// How many lines there are before them.
    lines: u32,
}

/// The commit that makes the file by an edit and inserts the texts without conditions, and after it those of the runs that have a
/// choice, from the last run to the first.
pub(crate) fn all_commits(
    alloc: Global,
    engine: &Engine,
    choice: Choice,
    edit: Edit,
    runs: &[Run],
    choices: &RunChoices,
) -> Result<Commands, Memory>
    requires edit { has_line_text edit ≡ true }
    requires are { AreRuns runs.now }
    requires few { text_count runs.now < LIMITS.edits }
    requires short { length engine.now.history ≤ LIMITS.commands }
    requires lines { line_count engine.now.history + text_count runs.now < 2 ^ 32 }
    requires declared { AllByRecursion (λ r. reach (conjunction r.conditions) ≤ CHOICE_WIDTH)
        runs.now }
    requires choices { choices.now ≡ map (run_choice engine.now.history) runs.now }
    ensures { IfOk result (λ commits. commits.commands ≡
        commits_after engine.now.history choice edit (plain_texts runs.now) runs.now) }
{
    let mut commits = Commands::new(alloc);
    add_making(&mut commits, alloc, engine.position(), choice, edit, runs)?;
    add_run_commits(&mut commits, alloc, engine, runs, choices.as_slice())?;
    Ok(commits)
}

// Adds the commit that makes the file.
#[tactic(auto, using(crate::proofs::Meant::reach_all))]
fn add_making(
    commits: &mut Commands,
    alloc: Global,
    base: Position,
    choice: Choice,
    edit: Edit,
    runs: &[Run],
) -> Result<(), Memory>
    requires edit { has_line_text edit ≡ true }
    requires few { text_count runs.now < LIMITS.edits }
    ensures { OnOk result (commits.new.commands ≡ commits.old.commands ++ commands.Commit base choice True
        (meant_for_all (edit ∷ chained (NewNode 0) (OldLine 0) 0 (plain_texts runs.now))) ∷ []) }
{
    let edits = making_edits(alloc, edit, runs)?;
    commits.push(Command::Commit {
        base,
        choice,
        ambition: everywhere(),
        edits,
    })
}

// An edit that makes a file and the inserts of the texts without conditions.
fn making_edits(alloc: Global, edit: Edit, runs: &[Run]) -> Result<Edits, Memory>
    requires edit { has_line_text edit ≡ true }
    requires few { text_count runs.now < LIMITS.edits }
    ensures { IfOk result (λ edits. edits ≡ meant_for_all
        (edit ∷ chained (NewNode 0) (OldLine 0) 0 (plain_texts runs.now))) }
{
    let mut edits = Edits::new(alloc);
    push_for_all(&mut edits, edit)?;
    let head = LineRef::Old(LineNo::new(0));
    insert_plain(&mut edits, &NodeRef::New(0), &head, runs)?;
    Ok(edits)
}

// Adds the commits of the runs that have a choice, from the last run to the first.
fn add_run_commits(
    commits: &mut Commands,
    alloc: Global,
    engine: &Engine,
    runs: &[Run],
    choices: &[Option<Choice>],
) -> Result<(), Memory>
    requires one { length commits.old.commands ≡ 1 }
    requires are { AreRuns runs.now }
    requires few { text_count runs.now < LIMITS.edits }
    requires short { length engine.now.history ≤ LIMITS.commands }
    requires lines { line_count engine.now.history + text_count runs.now < 2 ^ 32 }
    requires declared { AllByRecursion (λ r. reach (conjunction r.conditions) ≤ CHOICE_WIDTH)
        runs.now }
    requires choices { choices.now ≡ map (run_choice engine.now.history) runs.now }
    ensures { OnOk result (commits.new.commands ≡
        commits.old.commands ++ run_commits engine.now.history 0 runs.now) }
{
    let place = place_of(engine);
    let mut before = all_plain(runs);
    let mut left = runs.len();
    while left > 0 {
        left -= 1;
        let run = &runs[left];
        before -= plain_count(run);
        add_run(commits, alloc, &place, run, choices[left], before)?;
    }
    Ok(())
}

// Where the commits come to stand behind a history.
fn place_of(engine: &Engine) -> Place
    ensures base { result.base ≡ length engine.now.history }
    ensures file { result.file ≡ node_count engine.now.history }
    ensures lines { result.lines ≡ line_count engine.now.history }
{
    let counts = engine.counts();
    Place {
        base: engine.position().number(),
        file: NodeNo::new(counts.nodes),
        lines: counts.lines,
    }
}

// How many texts of runs stand without conditions.
fn all_plain(runs: &[Run]) -> usize
    requires { text_count runs.now < LIMITS.edits }
    ensures { result ≡ length (plain_texts runs.now) }
{
    let mut count = 0;
    let mut ahead = runs;
    while let [run, rest @ ..] = ahead {
        count += plain_count(run);
        ahead = rest;
    }
    count
}

// Adds the commit of a run on a choice, if there is one, so many texts without conditions standing before the run.
fn add_run(
    commits: &mut Commands,
    alloc: Global,
    place: &Place,
    run: &Run,
    choice: Option<Choice>,
    before: usize,
) -> Result<(), Memory>
    requires base { place.now.base + length commits.old.commands < 2 ^ 32 }
    requires anchor { place.now.lines + before < 2 ^ 32 }
    requires few { length run.now.texts < LIMITS.edits }
    requires declared { reach (conjunction run.now.conditions) ≤ CHOICE_WIDTH }
    ensures { OnOk result (commits.new.commands ≡ commits.old.commands ++
        commit_of (place.now.base + length commits.old.commands) place.now.file
        (anchor_at place.now.lines before) run.now choice) }
{
    let Some(choice) = choice else {
        return Ok(());
    };
    let base = Position::new(place.base + commits.len() as u32);
    let anchor = anchor_at(place.lines, before as u32);
    add_commit(commits, alloc, base, place.file, anchor, run, choice)
}

// The line behind which a run goes, of so many before the commits and so many without conditions before the run.
fn anchor_at(lines: u32, before: u32) -> LineNo
    requires { lines + before < 2 ^ 32 }
    ensures { result ≡ anchor_at lines before }
{
    match before {
        0 => LineNo::new(0),
        _ => LineNo::new(lines + before),
    }
}

// Adds the commit of a run on a choice.
#[tactic(auto, using(crate::proofs::Meant::reach_all))]
fn add_commit(
    commits: &mut Commands,
    alloc: Global,
    base: Position,
    file: NodeNo,
    anchor: LineNo,
    run: &Run,
    choice: Choice,
) -> Result<(), Memory>
    requires few { length run.now.texts < LIMITS.edits }
    requires declared { reach (conjunction run.now.conditions) ≤ CHOICE_WIDTH }
    ensures { OnOk result (commits.new.commands ≡
        commits.old.commands ++ commands.Commit base choice (conjunction run.now.conditions)
        (meant_for_all (chained (OldNode file) (OldLine anchor) 0 run.now.texts)) ∷ []) }
{
    let ambition = run.conditions.conjunction(alloc)?;
    let edits = run_edits(alloc, file, anchor, run.texts.as_slice())?;
    commits.push(Command::Commit {
        base,
        choice,
        ambition,
        edits,
    })
}

// The inserts of texts into a file, one after the other behind a line.
fn run_edits(alloc: Global, file: NodeNo, anchor: LineNo, texts: &[Text]) -> Result<Edits, Memory>
    requires spelt { list_all is_line_text texts.now ≡ true }
    requires few { length texts.now < LIMITS.edits }
    ensures { IfOk result (λ edits. edits ≡
        meant_for_all (chained (OldNode file) (OldLine anchor) 0 texts.now)) }
{
    let mut edits = Edits::new(alloc);
    let (file, anchor) = (NodeRef::Old(file), LineRef::Old(anchor));
    insert_texts(&mut edits, &file, &anchor, 0, texts)?;
    Ok(edits)
}
