//! One line of a script after another: each is answered and what it adds is stored, its rows of trees are written, its reply is put, and
//! the run ends.
#![tactic(auto)]

mod answer;
mod ending;
mod line;
mod line_server;
mod rows;
mod turn;

pub use answer::{Answer, Reply};
pub use ending::Ending;
pub use line::{put_reply, serve_line};
pub use line_server::LineServer;
pub use turn::serve_all;
