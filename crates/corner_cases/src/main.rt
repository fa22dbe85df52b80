//! Prints what each of many stored takeoffs comes to.
#![tactic(auto)]

use corner_report::report;
use std::io;
use std::io::Read;
use stored::Pieces;

// `cases` is this file with the other report. What both share would stand in a library and be public, and each public
// function promises what it does: of printing nothing can be promised, since std's `print` has no contract.

/// Prints the answer to one takeoff.
fn print_answer(rt: &HostRuntime, takeoff: &[u8]) -> io::Result<()> {
    match report(takeoff) {
        Ok(found) => print!(rt; "{found}"),
        Err(fault) => println!(rt; "{fault}"),
    }
}

/// Prints the answers to the takeoffs that the bytes hold, each behind two bytes that say its length.
fn print_all(rt: &HostRuntime, bytes: &[u8]) -> io::Result<()> {
    for (number, piece) in Pieces::new(bytes).enumerate() {
        let Ok(takeoff) = piece else {
            return println!(rt; "cut short");
        };
        println!(rt; "case {number}")?;
        print_answer(rt, takeoff)?;
    }
    Ok(())
}

/// Reads the input and answers it.
fn answer(rt: &HostRuntime) -> io::Result<()> {
    let mut bytes = Vec::new(rt.alloc());
    rt.stdin().read_to_end(&mut bytes)?;
    print_all(rt, &bytes)
}

fn main(rt: HostRuntime) -> io::Result<()> {
    answer(&rt)
}
