//! Tests of written trees, of disks and of journals on them, by their public calls. A crate with tests is proved twice, so these stand in a crate of their own that has
//! nothing else.
#![tactic(auto)]

#[cfg(test)]
mod tests;
