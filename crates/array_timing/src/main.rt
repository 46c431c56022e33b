//! Times the calls on arrays. Without a word it does each work once on a thousand cells and prints a number of
//! what came out, the same at each run. With any word it does each on a million cells, several times, and prints
//! the least time beside that number, in nanoseconds.
//!
//! What a work makes while the clock runs is timed with it, and so is letting that go again: the answer, and for
//! a function of an array the copy of all cells that it is given. So the time of a function is that of the copy and
//! of the call.
//!
//! Proved: that the program is safe and ends, what a row, one write and one append are, and that an array may go
//! to another thread and be read by two at once. No clause says what a work comes to, and none speaks of time.
//! `bench/array_twin.rs` does in plain Rust those works that are no function of an array.
#![tactic(auto)]

mod clock;
mod crossing;
mod fault;
mod making;
mod work;

use anyhow::Result;
use clock::best;
use std::env;
use std::rt::Clock;
use std::thread::Threads;
use work::{Operands, WORKS};

/// Once each on a thousand cells, and one array in two threads.
fn show<R: AllocGlobal + Print + Threads + Sync>(rt: &R) -> Result<()> {
    let mut operands = Operands::new(rt.alloc(), 1000)?;
    for work in WORKS.iter() {
        let outcome = work.run(rt.alloc(), &mut operands)?;
        println!(rt; "{work} {outcome}")?;
    }
    let (there, here) = crossing::sent(rt, rt.alloc(), &operands.left)?;
    println!(rt; "sent {there} {here}")?;
    let (there, here) = crossing::shared(rt, &operands.left);
    println!(rt; "shared {there} {here}")?;
    Ok(())
}

/// Each on a million cells, with the least time of 25 rounds.
fn time<R: AllocGlobal + Print + Clock>(rt: &R) -> Result<()> {
    let mut operands = Operands::new(rt.alloc(), 1_000_000)?;
    for work in WORKS.iter() {
        let (outcome, least) = best(rt, *work, &mut operands, 25)?;
        println!(rt; "{work} {outcome} {}", least.as_nanos())?;
    }
    Ok(())
}

fn main(rt: HostRuntime) -> Result<()> {
    if env::args(&rt)?.skip(1).next().is_some() {
        time(&rt)
    } else {
        show(&rt)
    }
}
