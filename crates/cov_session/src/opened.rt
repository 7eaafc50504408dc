// What the calls that open sessions answer.

use cov_base::{Choice, Position};

/// Where a session stands once it is opened or refreshed.
#[derive(Clone, Copy, Debug)]
pub struct Opened {
    pub base: Position,
    pub choice: Choice,
}
