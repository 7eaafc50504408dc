//! Numbers, names, choices and texts: what every crate of the store speaks of.
#![tactic(auto)]

mod bytes;
mod choice;
mod error;
mod file_row;
pub mod laws;
mod limits;
mod line_text;
mod list;
mod name;
mod number;
mod older;
mod option_name;
mod shared;
mod steps;

pub use bytes::Text;
pub use choice::Choice;
pub use error::{BadName, Failed, Memory, MemoryOr};
pub use file_row::{FileRow, FileRows, SharedRows};
pub use limits::{
    CHOICE_WIDTH, LIMITS, Limits, MOST_NAME_BYTES, MOST_OPTION_NAME_BYTES, MOST_PARTS,
    MOST_SCRIPT_LINE_BYTES, MOST_TEXT_BYTES, MOST_TOKENS, TOO_MANY_SCRIPT_BYTES, UPGRADED_LIMITS,
    limits_when,
};
pub use line_text::is_line_text;
pub use list::{ByReference, ByValue, LineNos, List, NodeNos, Numbers, Texts};
pub use name::{Name, Path};
pub use number::{Kind, LineNo, LineRef, NodeNo, NodeRef, OptionId, Position};
pub use older::{OlderList, OlderLists};
pub use option_name::{OptionName, is_first_byte, is_word_byte, spells_word};
pub use shared::Shared;
pub use steps::{Counted, Ledger, Steps, Tally, Uncounted};
