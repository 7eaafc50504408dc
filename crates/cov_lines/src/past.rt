// How the past is told: which commits reach a variant, where the lines of a file come from, and what a file or a tree was.
ghost use Rattle.std.specs.Prelude.{◌≡◌, true, nat_lt};
ghost use Rattle.std.specs.List.{list_all};
ghost use Rattle.cov_edit.specs.History.{option_count};
ghost use Rattle.cov_lines.specs.Acting.{Acts, Finds, Handles};
ghost use Rattle.cov_lines.specs.Step.{blamed, choice_then, logged, past_told, past_written};

use crate::handled::Handled;
use crate::reply::lines_reply;
use crate::state::ServerState;
use cov_base::{Choice, Name, Path, Position, Text};
use cov_codes::Stop;
use cov_expr::{Partial, RawChoice};
use cov_hist::laws::refused_options_are_declared;
use cov_hist::{blame, choice_at, log};
use cov_script::Code;

impl ServerState {
    /// Tells the commits whose ambition is true on the choice to which the rules complete bindings, each with how many of its edits apply
    /// there.
    #[tactic(auto, unfolding(crate::specs::Step::logged))]
    pub(crate) fn log(&mut self, choice: &RawChoice) -> Result<Text, Stop>
        ensures { Acts (logged self.old.state choice.now) self.old.state self.new.state result }
    {
        let choice = self.find_choice(choice)?;
        let commits = log(self.alloc, &self.engine, choice)?;
        Ok(lines_reply(self.alloc, commits.as_slice())?)
    }

    /// Tells the lines of a file in the variant of the choice to which the rules complete bindings, each with the commit that it comes
    /// from.
    #[tactic(auto, unfolding(crate::specs::Step::blamed))]
    pub(crate) fn blame(&mut self, choice: &RawChoice, path: &Path) -> Result<Text, Stop>
        ensures { Acts (blamed self.old.state choice.now path.now)
            self.old.state self.new.state result }
    {
        let choice = self.find_choice(choice)?;
        let file = self.find_file(choice, path)?;
        let lines = blame(self.alloc, &self.engine, choice, file)?;
        Ok(lines_reply(self.alloc, lines.as_slice())?)
    }

    /// Tells the lines of a file at a position, in the variant of the choice that bindings were then.
    #[tactic(auto, unfolding(crate::specs::Step::past_told))]
    pub(crate) fn tell_past(
        &self,
        position: Position,
        choice: &RawChoice,
        path: &Path,
    ) -> Result<Text, Stop>
        ensures { Acts (past_told self.now.state position choice.now path.now)
            self.now.state self.now.state result }
    {
        let partial = self.find_partial(choice)?;
        let choice = self.find_then(&partial, position)?;
        self.tell_at(choice, position, path)
    }

    /// Makes the tree of a position, that of the variant of the choice that bindings were then, and uses its name. Nothing is written yet.
    #[tactic(auto, unfolding(crate::specs::Step::past_written))]
    pub(crate) fn write_past(
        &mut self,
        tree: &Name,
        position: Position,
        choice: &RawChoice,
    ) -> Result<Handled, Stop>
        ensures { Handles (past_written self.old.state tree.now position choice.now)
            self.old.state self.new.state result }
    {
        let partial = self.find_partial(choice)?;
        if self.trees.contains(tree.as_slice()) {
            return Err(Stop::Refused(Code::TreeTaken));
        }
        let choice = self.find_then(&partial, position)?;
        self.trees.add(tree.as_slice())?;
        Ok(Handled::Done(self.make_tree_at(tree, choice, position)?))
    }

    /// The choice that a partial one is at a position.
    pub(crate) fn find_then(&self, partial: &Partial, position: Position) -> Result<Choice, Stop>
        requires { list_all (λ b. nat_lt b.0 (option_count self.now.state.history))
            partial.now ≡ true }
        ensures { Finds (choice_then self.now.state partial.now position) self.now.state result }
    {
        refused_options_are_declared();
        Ok(choice_at(&self.engine, partial, position)?)
    }
}
