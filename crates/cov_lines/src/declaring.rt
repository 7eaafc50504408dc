// How options and rules are declared, and the history is upgraded.
ghost use Rattle.cov_lines.specs.Acting.{Handles};
ghost use Rattle.cov_lines.specs.Step.{plainly, declared, constrained, preferred, defaulted, upgraded};

use crate::handled::{Confirmation, Handled};
use crate::state::ServerState;
use cov_base::{CHOICE_WIDTH, OptionId, OptionName, Text};
use cov_codes::Stop;
use cov_edit::Command;
use cov_expr::RawExpr;
use cov_script::{Code, reply_option};

impl ServerState {
    #[tactic(auto, unfolding(crate::specs::Step::declared))]
    pub(crate) fn declare(&self, token: &Text) -> Result<Handled, Stop>
        ensures { Handles (plainly (declared self.now.state token.now))
            self.now.state self.now.state result }
    {
        let name = OptionName::read(self.alloc, token.as_slice())?;
        let count = self.engine.options().count();
        // No option has a number that the reply could tell, and no history room for one.
        if count >= CHOICE_WIDTH {
            return Err(Stop::Refused(Code::Full));
        }
        let reply = reply_option(self.alloc, OptionId::new(count))?;
        Ok(Handled::to_declare(Command::Option { name }, Confirmation::Known(reply)))
    }

    #[tactic(auto, unfolding(crate::specs::Step::constrained))]
    pub(crate) fn constrain(&self, expr: &RawExpr) -> Result<Handled, Stop>
        ensures { Handles (plainly (constrained self.now.state expr.now))
            self.now.state self.now.state result }
    {
        let expr = self.find_expression(expr)?;
        Ok(Handled::to_declare(Command::Constraint { expr }, Confirmation::Constraint))
    }

    #[tactic(auto, unfolding(crate::specs::Step::preferred))]
    pub(crate) fn prefer(&self, expr: &RawExpr) -> Result<Handled, Stop>
        ensures { Handles (plainly (preferred self.now.state expr.now))
            self.now.state self.now.state result }
    {
        let expr = self.find_expression(expr)?;
        Ok(Handled::to_declare(Command::Prefer { expr }, Confirmation::Prefer))
    }

    /// Sets the default of an option.
    #[tactic(auto, unfolding(crate::specs::Step::defaulted))]
    pub(crate) fn set_default(&self, token: Text, on: bool) -> Result<Handled, Stop>
        ensures { Handles (plainly (defaulted self.now.state token on))
            self.now.state self.now.state result }
    {
        let option = self.find_option(token)?;
        Ok(Handled::to_declare(Command::Default { option, on }, Confirmation::Default))
    }

    #[tactic(auto, unfolding(crate::specs::Step::upgraded))]
    pub(crate) fn upgrade(&self) -> Result<Handled, Stop>
        ensures { Handles (plainly (upgraded self.now.state))
            self.now.state self.now.state result }
    {
        Ok(Handled::to_declare(Command::Upgrade, Confirmation::Upgrade))
    }
}
