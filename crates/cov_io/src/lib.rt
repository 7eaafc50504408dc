//! Devices that give and take bytes, and the lines of what they give.
#![tactic(auto)]

mod buffer;
mod calls;
mod count;
mod device;
mod in_memory;
mod reading;
mod retried;
mod standard;

pub use calls::Calls;
pub use count::raised;
pub use device::{Sink, Source};
pub use in_memory::{MemorySink, MemorySource};
pub use reading::{Item, LineFault, Lines};
pub use standard::{StdSink, StdSource};
