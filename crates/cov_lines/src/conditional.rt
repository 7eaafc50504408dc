// How a file is told with all its variants.
ghost use Rattle.cov_edit.specs.Replay.{replay};
ghost use Rattle.cov_lines.specs.Acting.{Acts, Finds};
ghost use Rattle.cov_lines.specs.Step.{conditions_told, file_exported, file_in};

use crate::reply::lines_reply;
use crate::state::ServerState;
use cov_base::{Choice, NodeNo, Path, Text};
use cov_codes::Stop;
use cov_cond::export;
use cov_expr::RawChoice;

impl ServerState {
    /// Tells the file at a path in the variant of the choice to which the rules complete bindings, with all its variants, as
    /// conditional text.
    #[tactic(auto, unfolding(crate::specs::Step::conditions_told))]
    pub(crate) fn tell_conditional(&mut self, choice: &RawChoice, path: &Path) -> Result<Text, Stop>
        ensures { Acts (conditions_told self.old.state choice.now path.now)
            self.old.state self.new.state result }
    {
        let choice = self.find_choice(choice)?;
        let file = self.find_file(choice, path)?;
        self.tell_exported(file)
    }

    /// The file at a path in the variant of a choice.
    pub(crate) fn find_file(&self, choice: Choice, path: &Path) -> Result<NodeNo, Stop>
        ensures { Finds (file_in (replay choice self.now.state.history) path.now)
            self.now.state result }
    {
        let at = self.engine.position();
        Ok(self.engine.file_at(choice, at, path.as_slice())?)
    }

    // Tells the conditional text of a file.
    #[tactic(auto, unfolding(crate::specs::Step::file_exported))]
    fn tell_exported(&self, file: NodeNo) -> Result<Text, Stop>
        ensures { Acts (file_exported self.now.state file)
            self.now.state self.now.state result }
    {
        let lines = export(self.alloc, &self.engine, file)?;
        Ok(lines_reply(self.alloc, lines.as_slice())?)
    }
}
