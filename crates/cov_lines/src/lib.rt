//! What each line of a script does to the store that a run has opened.
#![tactic(auto)]

mod adding;
mod analysing;
mod answering;
mod conditional;
mod declaring;
mod editing;
mod finding;
mod handled;
mod importing;
pub mod laws;
mod nearest_choices;
mod past;
mod presence;
mod reply;
mod seeing;
mod server;
mod serving;
mod session_lines;
mod state;
mod sweeping;
mod telling;
mod tree_names;
mod variant_reader;
mod whole;
mod writing;

pub use server::Server;
pub use variant_reader::VariantReader;
