//! Conjoins random clauses over 64 options, to be timed beside another library of diagrams: bench/conjunction.c does the
//! same. It prints the bits of the first choice that meets all clauses. With a second word the table is swept each time after so
//! many conjunctions. With a third one it isn't: each conjunction is kept to the end, where the table is swept so many times, and
//! before the bits the number of entries is printed that the last conjunction and those before it have.
#![tactic(auto)]

mod conjoining;
mod random;

use conjoining::{conjunction, conjunctions, first_choice, sweep};
use cov_base::Memory;
use cov_dd::{FALSE, Table};
use std::alloc::Global;
use std::{env, io};

fn main(rt: HostRuntime) -> io::Result<()> {
    let mut words = env::args(&rt)?;
    let window = match words.nth(1) {
        Some(word) => word.as_str().parse::<u8>().unwrap_or(16),
        None => 16,
    };
    let every = match words.next() {
        Some(word) => word.as_str().parse::<u32>().unwrap_or(0),
        None => 0,
    };
    let times = match words.next() {
        Some(word) => word.as_str().parse::<u32>().ok(),
        None => None,
    };
    match times {
        Some(times) => match swept_answer(rt.alloc(), window, times) {
            Ok((entries, bits)) => println!(rt; "{entries} {bits}"),
            Err(Memory) => println!(rt; "no memory"),
        },
        None => match answer(rt.alloc(), window, every) {
            Ok(bits) => println!(rt; "{bits}"),
            Err(Memory) => println!(rt; "no memory"),
        },
    }
}

// The bits of the first choice that meets the clauses.
fn answer(alloc: Global, window: u8, every: u32) -> Result<u128, Memory> {
    let mut table = Table::new(alloc)?;
    let all = conjunction(&mut table, window, every)?;
    Ok(first_choice(&table, all))
}

// How many entries there are up to the last conjunction, and the bits of the first choice that meets the clauses.
fn swept_answer(alloc: Global, window: u8, times: u32) -> Result<(u64, u128), Memory> {
    let mut table = Table::new(alloc)?;
    let mut nodes = conjunctions(&mut table, window)?;
    sweep(&mut table, &mut nodes, times)?;
    let all = nodes.as_slice().last().copied().unwrap_or(FALSE);
    Ok((all.saturating_sub(1), first_choice(&table, all)))
}
