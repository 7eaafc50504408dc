// A history in use.
ghost use Rattle.std.specs.Prelude.{ℕ, Bool, List, ◌≡◌, ◌≤◌, ◌+◌, ◌-◌, ◌++◌, ◌∷◌, [], true, nat_lt, length, map, take, slice_get, None, Some, is_none, IfOk, IfErr, IfSome, OnOk, OnErr};
ghost use Rattle.std.specs.List.{list_all};
ghost use Rattle.cov_base.specs.Rows.{is_present};
ghost use Rattle.cov_base.specs.declared.limits.TheConstants.{CHOICE_WIDTH};
ghost use Rattle.cov_dd.specs.Diagrams.{diagram_size, Extends};
ghost use Rattle.cov_dd.specs.Sweeps.{AreRenumbered};
ghost use Rattle.cov_expr.specs.Formula.{reach};
ghost use Rattle.cov_edit.specs.History.{options_of, option_count, constraints_of, first_false_in};
ghost use Rattle.cov_edit.specs.Numbering.{line_count, numbers_of};
ghost use Rattle.cov_edit.specs.Replay.{replay};
ghost use Rattle.cov_edit.specs.Variant.{lines_of};
ghost use Rattle.cov_rules.specs.Completion.{Complete, IsCompletion, IsRefusalBy};
ghost use Rattle.cov_view.specs.Views.{Shows};
ghost use Rattle.cov_vis.specs.Listings.{has_options_below, is_reduced, reads};
ghost use Rattle.cov_history.specs.Files.{file_dated};
ghost use Rattle.cov_history.specs.Kept.{kept_of};
ghost use Rattle.cov_history.specs.Completing.{completed_in};
ghost use Rattle.cov_visible.specs.Reading.{IsFileAt, line_row};
ghost use Rattle.cov_engine.specs.Meeting.{least_valid};
ghost use Rattle.cov_engine.specs.Ruling.{AreRulesOf};
ghost use Rattle.cov_engine.specs.States.{AreCountsOf, IsKept, IsSwept, history_of, nodes_of, table_of, receipt_number};
ghost use Rattle.cov_history.specs.Verdict.{IsLegal, verdict, RefusedBy};
ghost use Rattle.cov_engine.specs.Visibility.{IsVisibilityOf, as_row, has_line_number, is_no_line, is_refusal, presence_of};
ghost use Rattle.cov_visible.specs.Visible.{IsWhole, shown};

use crate::counted_commands::CountedCommands;
use crate::history_index::{HistoryIndex, file_of};
use crate::installing::add;
use crate::meeting::first_meeting;
use crate::option_positions::OptionPositions;
use crate::refusing::count_up_to;
use crate::state::{EngineState, make_ready};
use crate::sweeping::{append_nodes, sweep};
use crate::{
    Counts, FileFault, FileParts, Holders, NoHolders, Prepared, Receipt, Refusal, Visible,
};
use cov_base::{Choice, FileRows, LineNo, Memory, MemoryOr, Name, NodeNo, Position};
use cov_dd::{Node, Nodes, Table};
use cov_edit::Command;
use cov_expr::{Expr, Options, Partial};
use cov_overtaking::Commits;
use cov_rules::{CompleteFault, Invalid, Rules};
use cov_tree::Entries;
use cov_view::View;
use cov_vis::{Listing, list};
use cov_visible::part_of;
use std::alloc::Global;
use std::marker::Model;

/// The history has no line with the number.
#[derive(Clone, Copy, Debug, PartialEq, Eq)]
pub struct NoSuchLine;

/// A history. Contracts see it as the list of its commands, and its table.
#[derive(Drop)]
pub struct Engine {
    state: EngineState,
}

impl Model for Engine {
    ghost use Rattle.std.specs.Coded.{codes};
    ghost use Rattle.cov_dd.specs.contracts.triple.Triple as triples;
    ghost use Rattle.cov_edit.specs.contracts.command.Command as row;
    ghost use Rattle.cov_engine.specs.States.{EngineValue, IsKept, history_of, nodes_of, table_of};

    ghost Value = { EngineValue };

    ghost coded = { Prim.hlevel (codes, row.the_row.coded, triples.the_row.coded) };

    ghost view = { λ e. record {
      history = history_of e.state;
      table = table_of e.state;
      nodes = nodes_of e.state;
    } };

    ghost invariant = { λ e. IsKept e.state };
}

impl Engine {
    /// The empty history.
    pub fn new(alloc: Global) -> Result<Engine, Memory>
        ensures { IfOk result (λ engine. engine.history ≡ []) }
    {
        Ok(Engine {
            state: EngineState {
                commands: CountedCommands::new(alloc),
                options: Options::new(alloc),
                rules: Rules::new(alloc),
                counts: Counts {
                    lines: 0,
                    nodes: 1,
                    bytes: 0,
                },
                index: HistoryIndex {
                    commits: Commits::new(alloc),
                    file_of_line: Vec::new(alloc),
                },
                visible: Visible {
                    table: Table::new(alloc)?,
                    entries: Entries::new(alloc)?,
                    files: FileParts::new(alloc),
                },
                option_positions: OptionPositions::new(alloc)?,
                upgraded: false,
            },
        })
    }

    /// How many commands there are.
    pub fn position(&self) -> Position
        ensures { result ≡ length self.now.history }
    {
        Position::new(self.state.commands.len() as u32)
    }

    /// The command at a position. Takes no memory.
    pub fn command(&self, at: Position) -> &Command
        requires from { 1 ≤ at }
        requires to { at ≤ length self.now.history }
        ensures { slice_get self.now.history (at - 1) ≡ Some result.now }
    {
        &self.state.commands.as_slice()[at.number() as usize - 1]
    }

    /// How many options were declared up to a position; beyond the history all are. Takes no memory. It looks at as many as halvings
    /// leave.
    pub fn options_at(&self, at: Position) -> u8
        ensures count { result ≡ option_count (take at self.now.history) }
        ensures most { result ≤ CHOICE_WIDTH }
    {
        count_up_to(&self.state, at)
    }

    /// How many lines the first so many commands insert. Takes no memory. It takes the same time for a position of long ago.
    pub fn line_count_at(&self, at: Position) -> u32
        requires { at ≤ length self.now.history }
        ensures { result ≡ line_count (take at self.now.history) }
    {
        self.state.commands.line_count_at(at)
    }

    pub fn options(&self) -> &Options
        ensures { result.now.names ≡ options_of self.now.history }
    {
        &self.state.options
    }

    /// The options, without the rest. Takes no memory.
    pub fn into_options(self) -> Options
        ensures { result.names ≡ options_of self.history }
    {
        let Engine { state } = self;
        state.options
    }

    /// Does nothing; it tells that each command of the history is what its types keep and was accepted after those before it.
    pub fn history_is_legal(&self)
        ensures { IsLegal self.now.history }
    {
        // Names the state, since its invariant tells it.
        let _state = &self.state;
    }

    pub fn counts(&self) -> Counts
        ensures { AreCountsOf self.now.history result }
    {
        self.state.counts
    }

    /// The diagrams of the rules, of where commits touch what they touch, and of the visibilities of lines, files and directories.
    pub fn table(&self) -> &Table
        ensures { result.now ≡ self.now.table }
    {
        &self.state.visible.table
    }

    /// The rules that stand: those that the history declares, with nodes of the engine's table.
    pub fn rules(&self) -> &Rules
        ensures { AreRulesOf self.now.history self.now.table result.now.standing }
    {
        &self.state.rules
    }

    /// The visibility of a line now: the node that is true on exactly the choices in whose replay of the whole history the
    /// line is, its file present or not. None exactly where the history has no line with this number. So two lines have the
    /// same node (`Table::is_same`) exactly where they are in the replays of the same choices. Takes no memory. It looks at
    /// as many files as halvings leave.
    pub fn vis(&self, line: LineNo) -> Option<Node>
        ensures none { is_none result ≡ is_no_line self.now.history line }
        ensures stands { IfSome result (IsVisibilityOf self.now.history self.now.table line) }
    {
        match file_of(&self.state.index, &self.state.visible, line) {
            Some(part) => part.lines.vis(line),
            None => None,
        }
    }

    /// The presence of a line: the one reduced listing that is true on exactly the choices in whose replay of the whole history the
    /// line is, its file present or not. `NoSuchLine` comes exactly where the history has no line with this number. It takes time
    /// in the nodes below the line's visibility.
    pub fn presence(&self, line: LineNo) -> Result<Listing, MemoryOr<NoSuchLine>>
        ensures listing { IfOk result (λ listing. listing ≡ presence_of self.now.history line) }
        ensures reduced { IfOk result (λ listing. is_reduced listing ≡ true) }
        ensures options { IfOk result (λ listing.
            has_options_below (option_count self.now.history) listing ≡ true) }
        ensures reads { IfOk result (λ listing. (c : List Bool) → reads listing c ≡
            has_line_number line (replay c self.now.history)) }
        ensures none { is_refusal result ≡ is_no_line self.now.history line }
    {
        match self.vis(line) {
            Some(node) => Ok(list(self.table(), node)?),
            None => Err(MemoryOr::Refused(NoSuchLine)),
        }
    }

    /// All lines ever inserted into a file, in order; none where the number isn't a file's. It takes time in their number.
    pub fn file_lines(&self, file: NodeNo) -> Result<FileRows, Memory>
        ensures { IfOk result (λ rows. rows ≡
            map as_row (file_dated file (kept_of self.now.history))) }
    {
        match part_of(self.state.visible.files.as_slice(), file) {
            Some(part) => part.lines.all(),
            None => Ok(FileRows::new(self.state.index.commits.allocator())),
        }
    }

    /// Whether each constraint is true on a choice. Takes no memory.
    pub fn valid(&self, choice: Choice) -> Result<(), Invalid>
        requires { option_count self.now.history ≤ length choice }
        ensures ok { OnOk result (first_false_in self.now.history choice ≡ None) }
        ensures err { IfErr result (λ invalid. first_false_in self.now.history choice ≡
            Some invalid.rule) }
    {
        self.state.rules.valid(choice, self.position())
    }

    /// Whether each constraint of the first so many commands is true on a choice. Takes no memory.
    pub fn valid_at(&self, choice: Choice, at: Position) -> Result<(), Invalid>
        requires { option_count (take at self.now.history) ≤ length choice }
        ensures ok { OnOk result (first_false_in (take at self.now.history) choice ≡ None) }
        ensures err { IfErr result (λ invalid. first_false_in (take at self.now.history) choice ≡
            Some invalid.rule) }
    {
        self.state.rules.valid(choice, at)
    }

    /// Completes a partial choice by the rules: of the valid choices that agree with it each preference in order keeps
    /// those on which it is true, if there are any, then each default. The one choice left is the answer.
    pub fn complete(&mut self, partial: &Partial) -> Result<Choice, CompleteFault>
        requires { list_all (λ b. nat_lt b.0 (option_count self.old.history)) partial.now ≡ true }
        ensures same { self.new.history ≡ self.old.history }
        ensures extends { Extends self.old.table self.new.table }
        ensures complete { IfOk result (λ choice. completed_in self.old.history partial.now ≡
            Complete choice) }
        ensures answer { IfOk result
            (IsCompletion (option_count self.old.history) (constraints_of self.old.history)
            partial.now) }
        ensures refused { IfErr result (IsRefusalBy (completed_in self.old.history partial.now)) }
    {
        let count = self.state.options.count();
        self.state
            .rules
            .complete(&mut self.state.visible.table, partial, count)
    }

    /// The first valid choice of all options on which an expression is true, None exactly where there is none. Every node keeps its
    /// value. It takes time in the diagrams of the expression and of all constraints.
    pub fn least_valid(&mut self, condition: &Expr) -> Result<Option<Choice>, Memory>
        requires { reach condition.now ≤ option_count self.old.history }
        ensures same { self.new.history ≡ self.old.history }
        ensures extends { Extends self.old.table self.new.table }
        ensures first { IfOk result (λ found. found ≡
            least_valid self.old.history condition.now) }
    {
        let count = self.state.options.count();
        let valid = self.state.rules.conjunction();
        first_meeting(&mut self.state.visible.table, valid, condition, count)
    }

    /// What is shown, which is whole. At each position and on each choice it shows the variant of the replay, in which nothing is
    /// new. Takes no memory.
    pub fn visible(&self) -> &Visible
        ensures whole { IsWhole result.now }
        ensures table { result.now.table ≡ self.now.table }
        ensures shows { (at : ℕ) (choice : List Bool) →
            Shows (numbers_of (take at self.now.history))
            (numbers_of (take at self.now.history)).addresses (shown result.now choice at)
            (replay choice (take at self.now.history)) }
    {
        &self.state.visible
    }

    /// What is shown on a choice at a position: the rows that the entries have there, and of each file among them the lines. It is
    /// lent no command, so nothing is replayed. It takes time in the rows and lines that are kept.
    pub fn view(visible: &Visible, choice: Choice, at: Position) -> Result<View, Memory>
        requires whole { IsWhole visible.now }
        ensures { IfOk result (λ view. view ≡ shown visible.now choice at) }
    {
        cov_visible::view_at(visible, choice, at)
    }

    /// Keeps the rows and what the files show on a choice now, so that views on it share them. No clause tells whether it did: want of
    /// memory is passed over. It takes time in the rows if one has changed since, in the lines of the files that have changed since,
    /// and for each other file in its nodes.
    pub fn bring_forward(&mut self, choice: Choice)
        ensures { self.new ≡ self.old }
    {
        cov_visible::keep_shown(&mut self.state.visible, choice);
    }

    /// The file at a path, its names from the root on, in the variant of a choice at a position; beyond the history that is the one
    /// now. `NoSuchPath` and `NotFile` come exactly where a name on the path isn't there and where the path leads to a directory.
    /// It takes no memory, and for each name of the path time in the nodes that ever had that name in that directory.
    pub fn file_at(&self, choice: Choice, at: Position, path: &[Name]) -> Result<NodeNo, FileFault>
        ensures { IsFileAt (replay choice (take at self.now.history)) path.now result }
    {
        cov_visible::file_at(&self.state.visible, choice, at, path)
    }

    /// The lines of a file, visible on a choice at a position, in order, whether the file is there or not; none where the number
    /// isn't a file's. It takes time in the lines ever inserted into that file.
    pub fn lines_at(&self, file: NodeNo, choice: Choice, at: Position) -> Result<FileRows, Memory>
        ensures { IfOk result (λ rows. rows ≡
            map line_row (lines_of (replay choice (take at self.now.history)) file)) }
    {
        let alloc = self.state.index.commits.allocator();
        cov_visible::lines_at(alloc, &self.state.visible, file, choice, at)
    }

    /// Whether a node is in the variant of a choice at a position. It takes no memory, and time in the places of that node.
    pub fn has_node(&self, node: NodeNo, choice: Choice, at: Position) -> bool
        ensures { result ≡ is_present (replay choice (take at self.now.history)).rows node }
    {
        cov_visible::has_node(&self.state.visible, node, choice, at)
    }

    /// Makes everything ready for a command, so that its installation can't fail. A refusal, the first of the verdict on it,
    /// hands the engine back. Every node keeps its value, refused or not. A commit takes time in all rows, and for each edit at
    /// most in the lines of its file; where a commit after its base touched a node that it touches, it looks at all of these.
    pub fn prepare(self, command: Command) -> Result<Prepared, (Engine, Refusal)>
        ensures prepared { IfOk result (λ prepared. (prepared.history ≡ self.history) ×
            (prepared.command ≡ command)) }
        ensures accepted { OnOk result (verdict self.history command ≡ None) }
        ensures extends { IfOk result (λ prepared. Extends self.table prepared.table) }
        ensures back { IfErr result (λ refused. refused.0.history ≡ self.history) }
        ensures extends_back { IfErr result (λ refused. Extends self.table refused.0.table) }
        ensures refused { IfErr result (λ refused.
            RefusedBy refused.1 (verdict self.history command)) }
    {
        let Engine { mut state } = self;
        match make_ready(&mut state, &command) {
            Ok(ready) => Ok(Prepared::new(state, command, ready)),
            Err(refusal) => Err((Engine { state }, refusal)),
        }
    }

    /// Appends a command, unless the history refuses it; then it is as before. Every node keeps its value, refused or not. It
    /// takes the time of `prepare`.
    pub fn append(&mut self, command: Command) -> Result<Receipt, Refusal>
        ensures appended { OnOk result (self.new.history ≡ self.old.history ++ command ∷ []) }
        ensures accepted { OnOk result (verdict self.old.history command ≡ None) }
        ensures position { IfOk result (λ receipt. receipt.position ≡ length self.old.history + 1) }
        ensures number { IfOk result (λ receipt. receipt.number ≡
            receipt_number self.old.history command) }
        ensures same { OnErr result (self.new.history ≡ self.old.history) }
        ensures extends { Extends self.old.table self.new.table }
        ensures refused { IfErr result (λ refusal.
            RefusedBy refusal (verdict self.old.history command)) }
    {
        self.append_releasing(command, &mut NoHolders, &())
    }

    /// As `append`. Of those who hold shares of what the engine keeps, the ones that are named let go once the command is accepted,
    /// before it is installed; where it is refused, none does.
    pub fn append_releasing<K, H: Holders<K>>(
        &mut self,
        command: Command,
        holders: &mut H,
        which: &K,
    ) -> Result<Receipt, Refusal>
        ensures appended { OnOk result (self.new.history ≡ self.old.history ++ command ∷ []) }
        ensures accepted { OnOk result (verdict self.old.history command ≡ None) }
        ensures position { IfOk result (λ receipt. receipt.position ≡ length self.old.history + 1) }
        ensures number { IfOk result (λ receipt. receipt.number ≡
            receipt_number self.old.history command) }
        ensures same { OnErr result (self.new.history ≡ self.old.history) }
        ensures extends { Extends self.old.table self.new.table }
        ensures refused { IfErr result (λ refusal.
            RefusedBy refusal (verdict self.old.history command)) }
        ensures released { OnOk result (H.released which.now holders.old holders.new) }
        ensures none_released { OnErr result (holders.new ≡ holders.old) }
    {
        command.bounds_are_kept();
        let ready = match make_ready(&mut self.state, &command) {
            Ok(ready) => ready,
            Err(refusal) => return Err(refusal),
        };
        holders.release(which);
        let number = add(&mut self.state, &command, ready);
        let lines = self.state.counts.lines;
        self.state.commands.push(command, lines);
        let position = Position::new(self.state.commands.len() as u32);
        Ok(Receipt { position, number })
    }

    /// Appends every node that is kept: those of the rules, those on which lines, files and directories are visible or were, and
    /// those that say where commits touch what they touch. At an `Err` the list is as before.
    pub fn nodes(&self, into: &mut Nodes) -> Result<(), Memory>
        ensures ok { OnOk result (into.new ≡ into.old ++ self.now.nodes) }
        ensures err { OnErr result (into.new ≡ into.old) }
    {
        append_nodes(&self.state, into)
    }

    /// Leaves in the table what a node that is kept reaches, under new numbers: each of these nodes keeps its value, and all that
    /// is said of the history stays. No other node is one of the table then. At an `Err` all is as before. It takes time in the table
    /// and in the nodes that are kept.
    pub fn sweep(&mut self) -> Result<(), Memory>
        ensures history { self.new.history ≡ self.old.history }
        ensures nodes { OnOk result (AreRenumbered self.old.table self.new.table
            self.old.nodes self.new.nodes) }
        ensures swept { OnOk result (IsSwept self.new) }
        ensures fewer { diagram_size self.new.table ≤ diagram_size self.old.table }
        ensures err { OnErr result (self.new ≡ self.old) }
    {
        sweep(&mut self.state)
    }

    pub(crate) fn of_state(state: EngineState) -> Engine
        requires { IsKept state }
        ensures { result ≡ record {
          history = history_of state;
          table = table_of state;
          nodes = nodes_of state;
        } }
    {
        Engine { state }
    }
}
