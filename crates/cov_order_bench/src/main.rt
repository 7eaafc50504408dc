//! Puts lines in order, to be timed beside pages in another language: line 1 at the head, and each further one after line 1 or,
//! with the word `drawn`, after an earlier line drawn at random. It prints a checksum of the order.
#![tactic(auto)]

mod filling;

use cov_base::{LineNos, Memory};
use cov_order::Order;
use filling::fill;
use std::alloc::Global;
use std::{env, io};

fn main(rt: HostRuntime) -> io::Result<()> {
    let mut words = env::args(&rt)?;
    let count = match words.nth(1) {
        Some(word) => word.as_str().parse::<u32>().unwrap_or(1_000_000),
        None => 1_000_000,
    };
    let drawn = words.next().is_some();
    match checksum(rt.alloc(), count, drawn) {
        Ok(sum) => println!(rt; "{sum:016x}"),
        Err(Memory) => println!(rt; "no memory"),
    }
}

fn checksum(alloc: Global, count: u32, drawn: bool) -> Result<u64, Memory> {
    let mut order = Order::new(alloc);
    let walked = fill(&mut order, count, drawn);
    drop(order);
    Ok(sum_of(&walked?))
}

fn sum_of(lines: &LineNos) -> u64 {
    let mut sum: u64 = 14695981039346656037;
    for line in lines.as_slice() {
        sum = (sum ^ u64::from(line.number())).wrapping_mul(1099511628211);
    }
    sum
}
