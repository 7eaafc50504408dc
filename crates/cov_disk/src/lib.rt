//! A disk as a store sees it: what a read gives, and which images a crash may leave.
#![tactic(auto)]

mod device;
mod file;
mod file_disk;
mod kept;
mod memory;
mod pick;
mod torn;

pub use device::Disk;
pub use file_disk::FileDisk;
pub use memory::MemoryDisk;
pub use pick::Pick;
