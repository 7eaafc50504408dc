//! Tests of the crates on which the engine stands, by their public calls. A crate with tests is proved twice, so these stand in a
//! crate of their own that has nothing else.
#![tactic(auto)]

#[cfg(test)]
mod tests;
