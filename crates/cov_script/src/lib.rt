//! The lines of a script: what each of them says, or where it goes wrong.
#![tactic(auto)]

mod code;
mod commits;
mod demonstration;
mod draws;
mod field;
mod form;
mod grouped;
mod keyword;
mod laws;
mod line;
mod number;
mod plan;
mod read;
mod reader;
mod reply;
mod target;
mod unread;
mod word;

pub use code::{Code, code_text};
pub use demonstration::demo;
pub use grouped::{
    AnalysisLine, Declaration, EditLine, GroupedLine, PastLine, Question, SessionLine, TreeLine,
};
pub use laws::{lines_read_as_spelt, mistakes_are_placed};
pub use line::{Line, LineField, LineSyntax};
pub use number::read_long_number;
pub use read::read_line;
pub use reader::reads_variant;
pub use reply::{
    alt_line, append_blame_line, append_cat_line, append_log_line, append_text_line, cat_line,
    dead_line, forced_line, free_line, list_line, needed_line, redundant_line, reply_checkout,
    reply_commit, reply_complete, reply_constraint, reply_count, reply_default, reply_nearest,
    reply_new_line, reply_open, reply_option, reply_plain, reply_prefer, reply_refresh,
    reply_refused, reply_upgrade, reply_where, show_line, where_line, whole,
};
pub use target::Target;
