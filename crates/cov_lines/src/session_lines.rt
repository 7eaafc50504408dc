// How a session is opened, given a side for the edits that come next, refreshed, committed and given up.
ghost use Rattle.std.specs.Prelude.{◌≡◌};
ghost use Rattle.cov_lines.specs.Acting.{Acts, Handles};
ghost use Rattle.cov_lines.specs.Step.{committed, dropped, opened, plainly, refreshed, side_changed};

use crate::handled::{Addition, Confirmation, Handled};
use crate::state::ServerState;
use cov_base::{Name, Text};
use cov_codes::Stop;
use cov_expr::{RawChoice, RawExpr};
use cov_script::{reply_open, reply_plain, reply_refresh};

impl ServerState {
    /// Opens a session by a name that no open one has.
    #[tactic(auto, unfolding(crate::specs::Step::opened))]
    pub(crate) fn open(
        &mut self,
        name: Name,
        choice: &RawChoice,
        ambition: &RawExpr,
    ) -> Result<Text, Stop>
        ensures { Acts (opened self.old.state name choice.now ambition.now)
            self.old.state self.new.state result }
    {
        let partial = self.find_partial(choice)?;
        let ambition = self.find_expression(ambition)?;
        let opened = self
            .sessions
            .open(&mut self.engine, name, &partial, ambition)?;
        let options = self.engine.options();
        Ok(reply_open(self.alloc, opened.base, options, opened.choice)?)
    }

    /// Sets the side of the edits that come next in a session.
    #[tactic(auto, unfolding(crate::specs::Step::side_changed))]
    pub(crate) fn set_side(&mut self, name: &Name, side: &RawExpr) -> Result<Text, Stop>
        ensures { Acts (side_changed self.old.state name.now side.now)
            self.old.state self.new.state result }
    {
        let side = self.find_expression(side)?;
        self.sessions.side(name, side)?;
        Ok(reply_plain(self.alloc)?)
    }

    /// Moves the base of a session to now.
    #[tactic(auto, unfolding(crate::specs::Step::refreshed))]
    pub(crate) fn refresh(&mut self, name: &Name) -> Result<Text, Stop>
        ensures { Acts (refreshed self.old.state name.now) self.old.state self.new.state result }
    {
        let opened = self.sessions.refresh(&mut self.engine, name)?;
        let options = self.engine.options();
        Ok(reply_refresh(self.alloc, opened.base, options, opened.choice)?)
    }

    /// The commit of a session, which ends with it.
    #[tactic(auto, unfolding(crate::specs::Step::committed))]
    pub(crate) fn commit(&self, name: Name) -> Result<Handled, Stop>
        ensures { Handles (plainly (committed self.now.state name))
            self.now.state self.now.state result }
    {
        let command = self.sessions.command(&name)?;
        Ok(Handled::Adds(Addition {
            command,
            ends: Some(name),
            confirmation: Confirmation::Commit,
        }))
    }

    /// Gives a session up.
    #[tactic(auto, unfolding(crate::specs::Step::dropped))]
    pub(crate) fn discard(&mut self, name: &Name) -> Result<Text, Stop>
        ensures { Acts (dropped self.old.state name.now) self.old.state self.new.state result }
    {
        self.sessions.discard(name)?;
        Ok(reply_plain(self.alloc)?)
    }
}
