// How a tree is written: its rows, and the reply that comes after them.
ghost use Rattle.std.specs.Prelude.{◌≡◌, ◌<◌, ◌^◌, length, take, IfOk};
ghost use Rattle.cov_edit.specs.Replay.{replay};
ghost use Rattle.cov_lines.specs.Acting.{AnswersNow, Handles};
ghost use Rattle.cov_lines.specs.Step.{checked_out};
ghost use Rattle.cov_lines.specs.Written.{TellsTree, bytes_if_file, row_in, rows_in};
ghost use Rattle.cov_view.specs.Tree.{tree_of};

use crate::handled::Handled;
use crate::state::ServerState;
use cov_base::{Choice, Kind, Memory, Name, Position, Text};
use cov_codes::Stop;
use cov_engine::Engine;
use cov_expr::RawChoice;
use cov_loop::{Answer, Reply};
use cov_out::{OutRow, OutRows};
use cov_script::{Code, reply_checkout};
use cov_view::{TreeRow, TreeRows, View, digest, dirs_in, files_in};
use std::alloc::Global;

impl ServerState {
    /// Makes the tree of the variant of the choice to which the rules complete bindings, and uses its name. Nothing is written
    /// yet: the reply has the rows that are to come before it.
    pub(crate) fn check_out(&mut self, tree: &Name, choice: &RawChoice) -> Result<Handled, Stop>
        ensures { Handles (checked_out self.old.state tree.now choice.now)
            self.old.state self.new.state result }
    {
        match self.check_out_now(tree, choice) {
            Ok(reply) => Ok(Handled::Done(reply)),
            Err(stop) => Err(stop),
        }
    }

    /// The same, as a reply.
    #[tactic(auto, unfolding(crate::specs::Step::checked_out))]
    pub(crate) fn check_out_now(&mut self, tree: &Name, choice: &RawChoice) -> Result<Reply, Stop>
        ensures { AnswersNow (checked_out self.old.state tree.now choice.now)
            self.old.state self.new.state result }
    {
        let partial = self.find_partial(choice)?;
        if self.trees.contains(tree.as_slice()) {
            return Err(Stop::Refused(Code::TreeTaken));
        }
        let choice = self.complete_partial(&partial)?;
        self.trees.add(tree.as_slice())?;
        Ok(self.make_tree(tree, choice)?)
    }

    // The rows and the reply of the tree of a choice.
    fn make_tree(&self, tree: &Name, choice: Choice) -> Result<Reply, Memory>
        ensures { IfOk result
            (TellsTree tree.now (tree_of (replay choice self.now.state.history))) }
    {
        self.make_tree_at(tree, choice, self.engine.position())
    }

    /// The rows and the reply of the tree of a choice at a position.
    pub(crate) fn make_tree_at(
        &self,
        tree: &Name,
        choice: Choice,
        at: Position,
    ) -> Result<Reply, Memory>
        ensures { IfOk result (TellsTree tree.now
            (tree_of (replay choice (take at self.now.state.history)))) }
    {
        // That the count of nodes fits 32 bits bounds the rows for the proof.
        let _nodes = self.engine.counts();
        let view = Engine::view(self.engine.visible(), choice, at)?;
        let rows = view.tree();
        close_view(view);
        tell_tree(self.alloc, tree, &rows?)
    }
}

fn tell_tree(alloc: Global, tree: &Name, rows: &TreeRows) -> Result<Reply, Memory>
    requires { length rows.now < 2 ^ 32 }
    ensures { IfOk result (TellsTree tree.now rows.now) }
{
    let dirs = dirs_in(rows) as u32;
    let files = files_in(rows) as u32;
    let text = reply_checkout(alloc, tree, dirs, files, &digest(rows))?;
    let rows = rows_in(alloc, tree.as_slice(), rows)?;
    let answer = Answer::Accepted;
    Ok(Reply { text, rows, answer })
}

// The rows to be written: the directory of the tree, and all that is in it.
fn rows_in(alloc: Global, tree: &[u8], rows: &TreeRows) -> Result<OutRows, Memory>
    ensures { IfOk result (λ written. written ≡ rows_in tree.now rows.now) }
{
    let mut written = OutRows::new(alloc);
    let path = Text::from_slice(alloc, tree)?;
    written.push(OutRow { path, bytes: None })?;
    'rows: for row in rows.as_slice() {
        written.push(row_in(alloc, tree, row)?)?;
    }
    Ok(written)
}

fn row_in(alloc: Global, tree: &[u8], row: &TreeRow) -> Result<OutRow, Memory>
    ensures { IfOk result (λ written. written ≡ row_in tree.now row.now) }
{
    let mut path = Text::from_slice(alloc, tree)?;
    path.push(b'/')?;
    path.append(row.path.as_slice())?;
    let bytes = bytes_if_file(row)?;
    Ok(OutRow { path, bytes })
}

fn bytes_if_file(row: &TreeRow) -> Result<Option<Text>, Memory>
    ensures { IfOk result (λ bytes. bytes ≡ bytes_if_file row.now.kind row.now.bytes) }
{
    match row.kind {
        Kind::File => Ok(Some(row.bytes.copy()?)),
        Kind::Dir => Ok(None),
    }
}

// Drops a view, in the one place where that is done.
fn close_view(_: View) {}
