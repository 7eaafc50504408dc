//! What a history shows: its rows and lines with the diagrams on whose choices they are visible, how they are read, how edits are tried
//! on one variant, and what a commit's edits do to them.
#![tactic(auto)]

mod file_part;
mod file_parts;
mod file_staging;
mod number;
mod places;
mod reading;
mod resolved_edit;
mod resolving;
mod row_planning;
mod trial;
mod tried_rows;
mod viewing;
mod visible;

pub use file_part::FilePart;
pub use file_parts::FileParts;
pub use places::{count_below, part_of};
pub use reading::{FileFault, file_at, has_node, lines_at};
pub use resolved_edit::ResolvedEdit;
pub use resolving::{CommitContext, resolve};
pub use row_planning::plan_rows;
pub use trial::first_refused;
pub use viewing::{keep_shown, view_at, view_of_rows};
pub use visible::Visible;
