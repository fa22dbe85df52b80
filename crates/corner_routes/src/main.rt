//! Prints what a takeoff on standard input comes to.
#![tactic(auto)]

use corner_report::report;
use std::io;
use std::io::Read;

/// How many bytes of the input are read; further ones are not looked at.
const LIMIT: u64 = 40_000;

/// Reads the input, and prints its report or the one line that refuses it.
// `routes` is this file with the other report. What both share would stand in a library and be public, and each public
// function promises what it does: of printing nothing can be promised, since std's `print` has no contract.
fn answer(rt: &HostRuntime) -> io::Result<()> {
    let mut bytes = Vec::new(rt.alloc());
    rt.stdin().take(LIMIT).read_to_end(&mut bytes)?;
    match report(&bytes) {
        Ok(found) => print!(rt; "{found}"),
        Err(fault) => println!(rt; "{fault}"),
    }
}

fn main(rt: HostRuntime) -> io::Result<()> {
    answer(&rt)
}
