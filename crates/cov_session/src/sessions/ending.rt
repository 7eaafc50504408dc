// Sessions that let go of what they share with the engine.
ghost use Rattle.cov_session.specs.Calls.{HasEnded};

use crate::{NoSession, Sessions};
use cov_base::Name;
use cov_engine::Holders;

/// A session lets go of what it shares with the engine when it ends, as it does once the commit that it makes is accepted.
impl Holders<Option<Name>> for Sessions {
    ghost released = { HasEnded };

    // Ends the session of a name, if there is a name and an open session has it.
    fn release(&mut self, which: &Option<Name>) {
        match which {
            Some(name) => match self.discard(name) {
                Ok(()) | Err(NoSession) => (),
            },
            None => (),
        }
    }
}
