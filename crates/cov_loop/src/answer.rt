// What a line comes to.
ghost use Rattle.std.specs.Prelude.{◌≡◌, false, []};
ghost use Rattle.cov_loop.specs.Answers.{kind_of};

use cov_base::Text;
use cov_out::OutRows;
use std::alloc::Global;

/// What a line came to.
#[derive(Clone, Copy, Debug, PartialEq, Eq)]
pub enum Answer {
    /// It was done, and the reply says so.
    Accepted,
    /// It changed nothing, and the reply names the rule.
    Refused,
    /// It has no reply.
    Nothing,
}

/// A reply that isn't written yet, with the rows of trees that are written before it. Its text is empty where there is none.
#[derive(Drop)]
pub struct Reply {
    pub text: Text,
    pub rows: OutRows,
    pub answer: Answer,
}

impl Reply {
    /// The reply to a line that is done and writes no row.
    pub fn to_done(alloc: Global, text: Text) -> Reply
        ensures text { result.text ≡ text }
        ensures rows { result.rows ≡ [] }
        ensures answer { result.answer ≡ kind_of text false }
    {
        let answer = match text.is_empty() {
            true => Answer::Nothing,
            false => Answer::Accepted,
        };
        Reply {
            text,
            rows: OutRows::new(alloc),
            answer,
        }
    }
}
