//! Starts an application that takes just the steps of one job, as many times as the first word says, and prints how many of the starts
//! reached their end. It is for the measurement of the evaluator's speed (`bench/run`), and promises nothing.
#![tactic(auto)]

use mt_start::{Startup, start};
use mt_tree::NoMemory;
use std::alloc::Global;
use std::env;

/// An application whose start takes 1,000,000 steps.
const APPLICATION: &[u8] = b"1; 1; ; ; var i = 0; while (i < 142855) { i += 1; }";

/// The number of starts, where no word says one.
const STARTS: u32 = 1;

// How many of that many starts reach their end.
fn reached(alloc: Global, starts: u32) -> Result<u32, NoMemory> {
    let mut reached: u32 = 0;
    for _start in 0..starts {
        if let Startup::Started(_log) = start(alloc, APPLICATION)? {
            reached = reached.saturating_add(1);
        }
    }
    Ok(reached)
}

fn starts(rt: &HostRuntime) -> u32 {
    match env::args(rt) {
        Ok(mut words) => match words.nth(1) {
            Some(word) => word.parse().unwrap_or(STARTS),
            None => STARTS,
        },
        Err(_refused) => STARTS,
    }
}

fn main(rt: HostRuntime) -> Result<(), std::io::Error> {
    let starts = starts(&rt);
    match reached(rt.alloc(), starts) {
        Ok(reached) => println!(rt; "{reached} of {starts} starts reached their end"),
        Err(NoMemory) => println!(rt; "no memory"),
    }
}
