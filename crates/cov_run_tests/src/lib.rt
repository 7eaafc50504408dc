//! Tests of whole runs of the program over disks in memory: what they store, and what is left where a device fails or a crash comes.
#![tactic(auto)]

#[cfg(test)]
mod tests;
