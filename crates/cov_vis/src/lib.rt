//! Visibilities: the choices on which something is there, as nodes of a table of diagrams, and as listings.
#![tactic(auto)]

mod changing;
mod compiling;
pub mod laws;
mod listed;
mod listing;
mod visiting;

pub use changing::{add, take};
pub use compiling::compile;
pub use listed::list;
pub use listing::{Child, Listing, ListingEntries, ListingEntry};
