//! Makes so many files in one directory, and renames so many of them, each by a plan of its own, so that what a rename takes can be
//! counted. With a third word each plan is tested for soundness before it is installed. It prints how many rows there are then.
#![tactic(auto)]

mod renaming;

use cov_base::Memory;
use renaming::count_renamed;
use std::{env, io};

fn main(rt: HostRuntime) -> io::Result<()> {
    let mut words = env::args(&rt)?;
    let files = match words.nth(1) {
        Some(word) => word.as_str().parse::<u16>().unwrap_or(100),
        None => 100,
    };
    let renames = match words.next() {
        Some(word) => word.as_str().parse::<u16>().unwrap_or(0),
        None => 0,
    };
    let tested = words.next().is_some();
    match count_renamed(rt.alloc(), files, renames, tested) {
        Ok(count) => println!(rt; "{count}"),
        Err(Memory) => println!(rt; "no memory"),
    }
}
