//! Both sides of an option: the lines of a file with it on and with it off.
#![tactic(auto)]

mod fault;
mod line;
mod marking;
mod sides;

pub use fault::AltFault;
pub use line::{AltLine, AltLines, Mark};
pub use sides::alt;
