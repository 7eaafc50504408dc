// How a choice and a file are told: a file in the variant of a choice, on both sides of an option, or as a session sees it.
ghost use Rattle.std.specs.Prelude.{take};
ghost use Rattle.cov_edit.specs.Replay.{replay};
ghost use Rattle.cov_lines.specs.Acting.{Acts};
ghost use Rattle.cov_lines.specs.Step.{compared, completed, file_told, listed_at, shown, told};

use crate::reply::lines_reply;
use crate::state::ServerState;
use cov_alt::alt;
use cov_base::{Choice, Name, Path, Position, Text};
use cov_codes::Stop;
use cov_expr::RawChoice;
use cov_script::reply_complete;

impl ServerState {
    /// Tells the choice to which the rules complete bindings.
    #[tactic(auto, unfolding(crate::specs::Step::completed))]
    pub(crate) fn complete(&mut self, choice: &RawChoice) -> Result<Text, Stop>
        ensures { Acts (completed self.old.state choice.now) self.old.state self.new.state result }
    {
        let choice = self.find_choice(choice)?;
        Ok(reply_complete(self.alloc, self.engine.options(), choice)?)
    }

    /// Tells the lines of a file of the variant of a choice.
    #[tactic(auto, unfolding(crate::specs::Step::told))]
    pub(crate) fn tell(&mut self, choice: &RawChoice, path: &Path) -> Result<Text, Stop>
        ensures { Acts (told self.old.state choice.now path.now)
            self.old.state self.new.state result }
    {
        let choice = self.find_choice(choice)?;
        self.tell_now(choice, path)
    }

    // Tells the lines of a file of the variant of a whole choice.
    fn tell_now(&self, choice: Choice, path: &Path) -> Result<Text, Stop>
        ensures { Acts (file_told self.now.state (replay choice self.now.state.history) path.now)
            self.now.state self.now.state result }
    {
        self.tell_at(choice, self.engine.position(), path)
    }

    /// Tells the lines of a file of the variant of a choice at a position.
    #[tactic(auto, unfolding(crate::specs::Step::file_told))]
    pub(crate) fn tell_at(&self, choice: Choice, at: Position, path: &Path) -> Result<Text, Stop>
        ensures { Acts (file_told self.now.state
            (replay choice (take at self.now.state.history)) path.now)
            self.now.state self.now.state result }
    {
        let file = self.engine.file_at(choice, at, path.as_slice())?;
        let lines = self.engine.lines_at(file, choice, at)?;
        Ok(lines_reply(self.alloc, lines.as_slice())?)
    }

    /// Tells the lines of a file with an option on and with it off, in the variant of the choice to which the rules complete bindings.
    #[tactic(auto, unfolding(crate::specs::Step::compared))]
    pub(crate) fn compare(
        &mut self,
        choice: &RawChoice,
        token: Text,
        path: &Path,
    ) -> Result<Text, Stop>
        ensures { Acts (compared self.old.state choice.now token path.now)
            self.old.state self.new.state result }
    {
        let partial = self.find_partial(choice)?;
        let option = self.find_option(token)?;
        let choice = self.complete_partial(&partial)?;
        let lines = alt(self.alloc, &self.engine, choice, option, path)?;
        Ok(lines_reply(self.alloc, lines.as_slice())?)
    }

    /// Tells the lines of a file as a session sees them.
    #[tactic(auto, unfolding(crate::specs::Step::shown))]
    pub(crate) fn show(&self, name: &Name, path: &Path) -> Result<Text, Stop>
        ensures { Acts (shown self.now.state name.now path.now)
            self.now.state self.now.state result }
    {
        let (view, file) = self.node_at(name, path.as_slice())?;
        let lines = view.lines(file)?;
        Ok(lines_reply(self.alloc, lines.as_slice())?)
    }

    /// Tells what is in a directory as a session sees it.
    #[tactic(auto, unfolding(crate::specs::Step::listed_at))]
    pub(crate) fn list(&self, name: &Name, path: &Path) -> Result<Text, Stop>
        ensures { Acts (listed_at self.now.state name.now path.now)
            self.now.state self.now.state result }
    {
        let (view, directory) = self.node_at(name, path.as_slice())?;
        let nodes = view.list(directory)?;
        Ok(lines_reply(self.alloc, nodes.as_slice())?)
    }
}
