//! Tests of stores by their public calls: images that are whole, cut or changed, and commands that are applied while a disk stops.
//! A crate with tests is proved twice, so these stand in a crate of their own that has nothing else.
#![tactic(auto)]

#[cfg(test)]
mod tests;
