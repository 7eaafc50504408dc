//! Conditional text: lines of text with the conditions on which they hold, read from lines with directives.
#![tactic(auto)]

mod cond_text;
mod conditions;
mod fault;
mod form;
mod line_texts;
mod reader;
mod reading;
mod run;
mod steps;

pub use cond_text::CondText;
pub use conditions::Conditions;
pub use fault::CondFault;
pub use line_texts::LineTexts;
pub use reading::read;
pub use run::Run;
