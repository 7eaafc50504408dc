// What a session sees of what a line names.
ghost use Rattle.std.specs.Prelude.{◌≡◌, ok_or, IfOk, IfErr};
ghost use Rattle.cov_lines.specs.Acting.{Stops};
ghost use Rattle.cov_lines.specs.Seeing.{IsNamed, IsNodeAt};
ghost use Rattle.cov_lines.specs.Step.{node_at};
ghost use Rattle.cov_script.specs.declared.code.Code.TheVariants.{NoSession};
ghost use Rattle.cov_session.specs.Named.{named};

use crate::state::ServerState;
use cov_base::{Name, NodeRef};
use cov_codes::Stop;
use cov_script::Code;
use cov_view::View;

impl ServerState {
    // What the session of a name sees.
    fn view_of(&self, name: &Name) -> Result<&View, Stop>
        ensures found { IfOk result (λ view. IsNamed self.now.state name.now view.now) }
        ensures stopped { IfErr result
            (Stops (ok_or (named self.now.state.sessions name.now) NoSession)
            self.now.state self.now.state) }
    {
        Ok(self.sessions.view(name)?)
    }

    /// What the session of a name sees, and the node in it where names lead from the root.
    #[tactic(auto, unfolding(crate::specs::Step::node_at))]
    pub(crate) fn node_at(&self, name: &Name, path: &[Name]) -> Result<(&View, NodeRef), Stop>
        ensures found { IfOk result (λ found.
            IsNodeAt self.now.state name.now path.now found.0.now found.1) }
        ensures stopped { IfErr result
            (Stops (node_at self.now.state name.now path.now) self.now.state self.now.state) }
    {
        let view = self.view_of(name)?;
        match view.follow(path) {
            Some(node) => Ok((view, node)),
            None => Err(Stop::Refused(Code::NoSuchPath)),
        }
    }
}
