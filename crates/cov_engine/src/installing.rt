// Commands that are installed, or given up.
ghost use Rattle.std.specs.Prelude.{◌≡◌, ◌++◌, [], ◌∷◌, map, take};
ghost use Rattle.cov_edit.specs.Touched.{AreRising};
ghost use Rattle.cov_visible.specs.Parts.{part_node, count_below};
ghost use Rattle.cov_visible.specs.Staging.{contents};
ghost use Rattle.cov_engine.specs.Ready.{IsPrepared};
ghost use Rattle.cov_engine.specs.States.{history_of, table_of, receipt_number, IsKept, Keeps};
ghost use Rattle.cov_engine.specs.declared.addition.Addition.TheVariants as additions;

use crate::addition::Addition;
use crate::history_index::HistoryIndex;
use crate::staging::{install, unstage};
use crate::state::EngineState;
use crate::{Counts, Visible};
use cov_base::{NodeNo, OptionName, Position};
use cov_edit::Command;
use cov_overtaking::CommitMark;
use cov_rules::{Rule, RulePlan};
use cov_tree::EntryPlan;
use cov_visible::{ResolvedEdit, count_below};

/// Adds all of a command that is ready but the command itself, and answers the number on its receipt.
pub(crate) fn add(state: &mut EngineState, command: &Command, ready: Addition) -> u32
    requires prepared { IsPrepared state.old command.now ready }
    ensures commands { state.new.commands ≡ state.old.commands }
    ensures table { table_of state.new ≡ table_of state.old }
    ensures kept { Keeps (history_of state.old ++ command.now ∷ []) state.new }
    ensures number { result ≡ receipt_number (history_of state.old) command.now }
{
    match ready {
        Addition::Option { name } => add_option(state, command, name),
        Addition::Rule { rule, plan } => add_rule(state, command, rule, plan),
        Addition::Commit {
            mark,
            counts,
            edits,
            rows,
        } => add_commit(state, command, mark, counts, edits, rows),
        Addition::Upgrade => add_upgrade(state, command),
    }
}

fn add_option(state: &mut EngineState, command: &Command, name: OptionName) -> u32
    requires prepared { IsPrepared state.old command.now (additions.Option name) }
    ensures commands { state.new.commands ≡ state.old.commands }
    ensures table { table_of state.new ≡ table_of state.old }
    ensures kept { Keeps (history_of state.old ++ command.now ∷ []) state.new }
    ensures number { result ≡ receipt_number (history_of state.old) command.now }
{
    let at = Position::new(state.commands.len() as u32 + 1);
    state.option_positions.push(at);
    u32::from(state.options.declare(name).number())
}

fn add_rule(state: &mut EngineState, command: &Command, rule: Rule, plan: RulePlan) -> u32
    requires prepared { IsPrepared state.old command.now (additions.Rule rule plan) }
    ensures commands { state.new.commands ≡ state.old.commands }
    ensures table { table_of state.new ≡ table_of state.old }
    ensures kept { Keeps (history_of state.old ++ command.now ∷ []) state.new }
    ensures number { result ≡ receipt_number (history_of state.old) command.now }
{
    let at = Position::new(state.commands.len() as u32 + 1);
    state.rules.install(plan, rule, at)
}

fn add_commit(
    state: &mut EngineState,
    command: &Command,
    mark: CommitMark,
    counts: Counts,
    edits: Vec<ResolvedEdit>,
    rows: EntryPlan,
) -> u32
    requires prepared { IsPrepared state.old command.now (additions.Commit mark counts edits rows) }
    ensures commands { state.new.commands ≡ state.old.commands }
    ensures table { table_of state.new ≡ table_of state.old }
    ensures kept { Keeps (history_of state.old ++ command.now ∷ []) state.new }
    ensures number { result ≡ receipt_number (history_of state.old) command.now }
{
    let first = count_below(
        state.visible.files.as_slice(),
        NodeNo::new(state.counts.nodes),
    );
    install(
        &mut state.index,
        &mut state.visible,
        first,
        edits,
        rows,
        mark,
    );
    state.counts = counts;
    0
}

fn add_upgrade(state: &mut EngineState, command: &Command) -> u32
    requires prepared { IsPrepared state.old command.now additions.Upgrade }
    ensures commands { state.new.commands ≡ state.old.commands }
    ensures table { table_of state.new ≡ table_of state.old }
    ensures kept { Keeps (history_of state.old ++ command.now ∷ []) state.new }
    ensures number { result ≡ receipt_number (history_of state.old) command.now }
{
    state.upgraded = true;
    2
}

/// Gives up what is ready for a command.
pub(crate) fn give_up(state: &mut EngineState, command: &Command, ready: &Addition)
    requires prepared { IsPrepared state.old command.now ready.now }
    ensures commands { state.new.commands ≡ state.old.commands }
    ensures table { table_of state.new ≡ table_of state.old }
    ensures kept { IsKept state.new }
{
    match ready {
        Addition::Option { .. } | Addition::Rule { .. } | Addition::Upgrade => (),
        Addition::Commit { mark, .. } => cut_off(
            &mut state.index,
            &mut state.visible,
            state.counts,
            mark.touched.as_slice(),
        ),
    }
}

// Cuts off what is staged for a commit that touches these nodes.
fn cut_off(index: &mut HistoryIndex, visible: &mut Visible, counts: Counts, touched: &[NodeNo])
    requires rising { AreRising (map part_node visible.old.files) }
    ensures table { visible.new.table ≡ visible.old.table }
    ensures commits { index.new.commits.items ≡ index.old.commits.items }
    ensures entries { visible.new.entries ≡ visible.old.entries }
    ensures file_of_line { index.new.file_of_line.items ≡
        take counts.lines index.old.file_of_line.items }
    ensures files { map contents visible.new.files ≡
        map contents (take (count_below counts.nodes (map part_node visible.old.files))
        visible.old.files) }
{
    let files = count_below(visible.files.as_slice(), NodeNo::new(counts.nodes));
    unstage(index, visible, files, counts.lines, touched);
}
