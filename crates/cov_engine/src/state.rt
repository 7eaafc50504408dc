// What an engine keeps.
ghost use Rattle.std.specs.Prelude.{◌≡◌, ◌<◌, ◌≤◌, ◌-◌, length, None, IfOk, IfErr, OnOk, OnErr};
ghost use Rattle.cov_dd.specs.Diagrams.{Extends};
ghost use Rattle.cov_edit.specs.History.{edits_in, option_count};
ghost use Rattle.cov_edit.specs.Limits.{limits_of};
ghost use Rattle.cov_edit.specs.Sides.{unsided, reach_within};
ghost use Rattle.cov_engine.specs.Refusing.{early_refusal};
ghost use Rattle.cov_engine.specs.Summaries.{summary_of, IsSummaryOf};
ghost use Rattle.cov_engine.specs.States.{history_of, table_of, name_refusal, IsKept};
ghost use Rattle.cov_engine.specs.Staged.{LeavesSound, LeavesUnsound};
ghost use Rattle.cov_engine.specs.Ready.{IsInBounds, IsPlannedFor, IsReadyFor, IsStagedFor};
ghost use Rattle.cov_history.specs.Verdict.{verdict, RefusedBy};
ghost use Rattle.cov_engine.specs.declared.addition.Addition.TheVariants as additions;

use crate::addition::{Addition, stage_commit};
use crate::counted_commands::CountedCommands;
use crate::evidence::refusal_left;
use crate::history_index::HistoryIndex;
use crate::option_positions::OptionPositions;
use crate::refusing::early_refusal;
use crate::rule::rule_ready;
use crate::sizes::with_sizes;
use crate::summary::{EditSummary, summarize};
use crate::{Counts, Refusal, Visible};
use cov_base::{LIMITS, Limits, Memory, NodeNo, OptionName, Position, limits_when};
use cov_edit::{Command, Edits};
use cov_expr::{Expr, Options};
use cov_overtaking::{CommitMark, conditions_of, mark_of, overtaken};
use cov_rules::Rules;
use cov_tree::EntryPlan;
use cov_vis::compile;
use cov_visible::{CommitContext, ResolvedEdit, plan_rows, resolve};

/// The history with what it declares and shows, and whether it has an upgrade. The table has the nodes of the rules too.
#[derive(Drop)]
pub(crate) struct EngineState {
    pub(crate) commands: CountedCommands,
    pub(crate) options: Options,
    pub(crate) option_positions: OptionPositions,
    pub(crate) rules: Rules,
    pub(crate) counts: Counts,
    pub(crate) index: HistoryIndex,
    pub(crate) visible: Visible,
    pub(crate) upgraded: bool,
}

/// The limits of the history.
pub(crate) fn limits_now(state: &EngineState) -> Limits
    requires { IsKept state.now }
    ensures { result ≡ limits_of (history_of state.now) }
{
    limits_when(state.upgraded)
}

/// Makes everything ready for a command, unless the history refuses it.
pub(crate) fn make_ready(state: &mut EngineState, command: &Command) -> Result<Addition, Refusal>
    requires kept { IsKept state.old }
    ensures history { history_of state.new ≡ history_of state.old }
    ensures extends { Extends (table_of state.old) (table_of state.new) }
    ensures room { OnOk result (0 < state.new.commands.spare) }
    ensures accepted { OnOk result (verdict (history_of state.old) command.now ≡ None) }
    ensures ready { IfOk result (IsReadyFor state.new command.now) }
    ensures refused { IfErr result (λ refusal.
        RefusedBy refusal (verdict (history_of state.old) command.now)) }
    ensures kept { OnErr result (IsKept state.new) }
{
    if state.commands.len() >= LIMITS.commands {
        return Err(Refusal::Full);
    }
    let summary = match summarize(state.index.commits.allocator(), command) {
        Ok(summary) => summary,
        Err(Memory) => return Err(Refusal::Memory),
    };
    match early_refusal(state, command, &summary) {
        Ok(Some(refusal)) => Err(refusal),
        Ok(None) => with_room(state, command, summary),
        Err(Memory) => Err(Refusal::Memory),
    }
}

// Makes everything ready for a command that isn't refused early, where the history isn't full.
fn with_room(
    state: &mut EngineState,
    command: &Command,
    summary: EditSummary,
) -> Result<Addition, Refusal>
    requires kept { IsKept state.old }
    requires summary { IsSummaryOf (unsided (edits_in command.now)) summary }
    requires passes { early_refusal (history_of state.old) command.now ≡ None }
    requires few { length (history_of state.old) < LIMITS.commands }
    ensures history { history_of state.new ≡ history_of state.old }
    ensures extends { Extends (table_of state.old) (table_of state.new) }
    ensures room { OnOk result (0 < state.new.commands.spare) }
    ensures accepted { OnOk result (verdict (history_of state.old) command.now ≡ None) }
    ensures ready { IfOk result (IsReadyFor state.new command.now) }
    ensures refused { IfErr result (λ refusal.
        RefusedBy refusal (verdict (history_of state.old) command.now)) }
    ensures kept { OnErr result (IsKept state.new) }
{
    match state.commands.reserve() {
        Ok(()) => ready_for(state, command, summary),
        Err(_) => Err(Refusal::Memory),
    }
}

// Makes ready what a command adds that isn't refused early, where there is room for one more.
fn ready_for(
    state: &mut EngineState,
    command: &Command,
    summary: EditSummary,
) -> Result<Addition, Refusal>
    requires kept { IsKept state.old }
    requires summary { IsSummaryOf (unsided (edits_in command.now)) summary }
    requires passes { early_refusal (history_of state.old) command.now ≡ None }
    requires few { length (history_of state.old) < LIMITS.commands }
    ensures commands { state.new.commands ≡ state.old.commands }
    ensures extends { Extends (table_of state.old) (table_of state.new) }
    ensures accepted { OnOk result (verdict (history_of state.old) command.now ≡ None) }
    ensures ready { IfOk result (IsReadyFor state.new command.now) }
    ensures refused { IfErr result (λ refusal.
        RefusedBy refusal (verdict (history_of state.old) command.now)) }
    ensures kept { OnErr result (IsKept state.new) }
{
    let alloc = state.index.commits.allocator();
    let limits = limits_now(state);
    match command {
        Command::Option { name } => option_ready(&mut state.options, name, limits.options),
        Command::Commit {
            base,
            ambition,
            edits,
            ..
        } => match overtaken(
            alloc,
            &mut state.visible.table,
            state.rules.conjunction(),
            &state.index.commits,
            *base,
            ambition,
            edits,
            summary.touched.as_slice(),
        ) {
            Ok(Some(position)) => Err(Refusal::Overtaken { position }),
            Ok(None) => commit_ready(state, ambition, edits, summary),
            Err(Memory) => Err(Refusal::Memory),
        },
        Command::Upgrade => Ok(Addition::Upgrade),
        _ => rule_ready(
            alloc,
            &mut state.rules,
            &mut state.visible.table,
            command,
            limits.rules,
        ),
    }
}

// Makes room for an option, and a copy of its name, where so many may be declared.
fn option_ready(options: &mut Options, name: &OptionName, most: u8) -> Result<Addition, Refusal>
    ensures names { options.new.names ≡ options.old.names }
    ensures room { OnOk result (0 < options.new.spare) }
    ensures accepted { OnOk result (name_refusal most options.old.names name.now ≡ None) }
    ensures ready { IfOk result (λ r. r ≡ additions.Option name.now) }
    ensures refused { IfErr result (λ refusal.
        RefusedBy refusal (name_refusal most options.old.names name.now)) }
{
    match name_refusal(options, name.as_slice(), most) {
        Some(refusal) => Err(refusal),
        None => match copied_name(options, name) {
            Ok(name) => Ok(Addition::Option { name }),
            Err(Memory) => Err(Refusal::Memory),
        },
    }
}

fn copied_name(options: &mut Options, name: &OptionName) -> Result<OptionName, Memory>
    ensures names { options.new.names ≡ options.old.names }
    ensures room { OnOk result (0 < options.new.spare) }
    ensures copied { IfOk result (λ copy. copy ≡ name.now) }
{
    options.reserve()?;
    name.copy()
}

// The refusal of an option by its name, where there is room for a command and so many options may be declared.
fn name_refusal(options: &Options, name: &[u8], most: u8) -> Option<Refusal>
    ensures { result ≡ name_refusal most options.now.names name.now }
{
    if options.count() >= most {
        return Some(Refusal::Full);
    }
    match options.find(name) {
        Some(_) => Some(Refusal::Exists),
        None => None,
    }
}

// Stages a commit, unless it would leave a variant unsound.
fn commit_ready(
    state: &mut EngineState,
    ambition: &Expr,
    edits: &Edits,
    summary: EditSummary,
) -> Result<Addition, Refusal>
    requires kept { IsKept state.old }
    requires summary { summary ≡ summary_of (unsided edits.now) }
    requires reach { reach_within ambition.now edits.now ≤ option_count (history_of state.old) }
    requires fits { IsInBounds (history_of state.old) (unsided edits.now) }
    ensures commands { state.new.commands ≡ state.old.commands }
    ensures extends { Extends (table_of state.old) (table_of state.new) }
    ensures ready { IfOk result (IsStagedFor state.new ambition.now edits.now) }
    ensures kept { OnErr result (IsKept state.new) }
    ensures sound { OnOk result (LeavesSound (history_of state.old) ambition.now edits.now) }
    ensures refused { IfErr result (LeavesUnsound (history_of state.old) ambition.now edits.now) }
{
    let sizes = summary.sizes;
    let (mark, edits, rows) = commit_planned(state, ambition, edits, summary)?;
    let counts = with_sizes(state.counts, sizes);
    stage_commit(
        &mut state.index,
        &mut state.visible,
        &rows,
        state.counts.lines,
        NodeNo::new(counts.nodes - 1),
        mark.touched.as_slice(),
        edits.as_slice(),
    )?;
    Ok(Addition::Commit {
        mark,
        counts,
        edits,
        rows,
    })
}

// Resolves the edits of a commit and plans their changes of rows, unless these would leave a variant unsound.
fn commit_planned(
    state: &mut EngineState,
    ambition: &Expr,
    edits: &Edits,
    summary: EditSummary,
) -> Result<(CommitMark, Vec<ResolvedEdit>, EntryPlan), Refusal>
    requires kept { IsKept state.old }
    requires summary { summary ≡ summary_of (unsided edits.now) }
    requires reach { reach_within ambition.now edits.now ≤ option_count (history_of state.old) }
    requires fits { IsInBounds (history_of state.old) (unsided edits.now) }
    ensures commands { state.new.commands ≡ state.old.commands }
    ensures extends { Extends (table_of state.old) (table_of state.new) }
    ensures kept { IsKept state.new }
    ensures planned { IfOk result (λ r.
        IsPlannedFor state.new ambition.now edits.now r.0 r.1.items r.2) }
    ensures sound { OnOk result (LeavesSound (history_of state.old) ambition.now edits.now) }
    ensures refused { IfErr result (LeavesUnsound (history_of state.old) ambition.now edits.now) }
{
    let alloc = state.index.commits.allocator();
    let position = Position::new(state.commands.len() as u32 + 1);
    let context = context_of(state.counts, position);
    let node = compile(&mut state.visible.table, ambition)?;
    let conditions = conditions_of(alloc, &mut state.visible.table, node, edits)?;
    let mark = mark_of(
        alloc,
        &mut state.visible.table,
        position,
        node,
        conditions.as_slice(),
        edits,
        summary.touched,
    )?;
    let resolved = resolve(
        alloc,
        &mut state.visible.table,
        state.visible.files.as_slice(),
        &context,
        conditions.as_slice(),
        edits.as_slice(),
    )?;
    let mut rows = EntryPlan::new(alloc);
    plan_rows(
        &mut state.visible.table,
        &state.visible.entries,
        &mut rows,
        resolved.as_slice(),
    )?;
    match refusal_left(
        alloc,
        &mut state.visible.table,
        &state.visible.entries,
        &rows,
        state.rules.conjunction(),
        node,
        state.options.count(),
        summary.changes_rows,
    )? {
        Some(refusal) => Err(refusal),
        None => Ok((mark, resolved, rows)),
    }
}

// Where a commit's edits are resolved.
fn context_of(counts: Counts, at: Position) -> CommitContext
    requires { 1 ≤ counts.nodes }
    ensures { result ≡ record {
      at = at;
      nodes = counts.nodes - 1;
      lines = counts.lines;
    } }
{
    CommitContext {
        at,
        nodes: counts.nodes - 1,
        lines: counts.lines,
    }
}
