//! Tests of whole runs of the program, over devices in memory.
#![tactic(auto)]

#[cfg(test)]
mod tests;
