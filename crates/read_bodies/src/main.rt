//! Reads the bytes of its standard input as a body, as many times as the second word says, and prints how often they were read. The
//! first word says as what: `data` or `arguments`. It is for the measurement of readers (`bench/bodies`), and promises nothing.
#![tactic(auto)]

use mt_json::{read_arguments, read_data};
use std::alloc::Global;
use std::io::Read;
use std::{env, io};

// What a body is read as.
#[derive(Clone, Copy)]
enum Kind {
    Data,
    Arguments,
}

fn is_read(alloc: Global, kind: Kind, body: &[u8]) -> bool {
    match kind {
        Kind::Data => read_data(alloc, body).is_ok(),
        Kind::Arguments => read_arguments(alloc, body).is_ok(),
    }
}

fn count_read(alloc: Global, kind: Kind, body: &[u8], times: u32) -> u32 {
    let mut read: u32 = 0;
    for _time in 0..times {
        if is_read(alloc, kind, body) {
            read = read.saturating_add(1);
        }
    }
    read
}

// What the words say: the kind, and how many times.
fn wanted(rt: &HostRuntime) -> (Kind, u32) {
    let mut kind = Kind::Data;
    let mut times = 1;
    if let Ok(mut words) = env::args(rt) {
        if let Some(word) = words.nth(1) {
            if word.as_str() == "arguments" {
                kind = Kind::Arguments;
            }
        }
        if let Some(word) = words.next() {
            times = word.parse().unwrap_or(1);
        }
    }
    (kind, times)
}

fn main(rt: HostRuntime) -> Result<(), io::Error> {
    let (kind, times) = wanted(&rt);
    let mut body = Vec::new(rt.alloc());
    rt.stdin().read_to_end(&mut body)?;
    let read = count_read(rt.alloc(), kind, body.as_slice(), times);
    println!(rt; "{read} of {times}")
}
