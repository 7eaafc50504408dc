//! Serves the lines of a script, one after another, and is the whole program but for its real devices.
#![tactic(auto)]

mod demo;
mod import;
mod job;
mod journal_source;
mod last_line;
pub mod laws;
mod line;
mod program;
mod replica;
mod status;
mod text_serving;
mod text_source;

pub use cov_lines::Server;
pub use cov_loop::Answer;
pub use line::serve_line;
pub use program::run;
pub use status::Status;
