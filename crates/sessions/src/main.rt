//! Gives plans stored lists of calls, in any order and with any arguments, and prints what they answer.
#![tactic(auto)]

ghost use Rattle.std.specs.Prelude.{◌≤◌};

use network::{Fault, Record, Step, Weight};
use plan::{Call, Reply, carry_out};
use sources::Table;
use std::io;
use std::io::Read;
use takeoff::read;

/// The call that thirteen bytes say: its kind, four small numbers, and the two parts of a weight.
// A function, and no `From`: neither the array nor `Call` is a type of this crate. The kind is matched as the byte that it
// is: the six numbers and the rest stand for calls here alone.
fn call_of(bytes: &[u8; 13]) -> Call {
    let [kind, v, k, from, long, a0, a1, a2, a3, b0, b1, b2, b3] = *bytes;
    let v = usize::from(v);
    let k = usize::from(k);
    let weight = Weight {
        a: i32::from_be_bytes([a0, a1, a2, a3]),
        b: i32::from_be_bytes([b0, b1, b2, b3]),
    };
    match kind {
        0 => Call::Start(v),
        1 => Call::Settle,
        2 => Call::Count(v),
        3 => Call::Corner(v, k),
        4 => Call::Cone(v, k),
        5 => Call::Cheapest(v, weight),
        _ => Call::Route(v, k, usize::from(from), usize::from(long)),
    }
}

/// Prints one answer.
// Case by case: `Reply` is no type of this crate, so that it can have no `Display` here.
fn print_answer(rt: &HostRuntime, answer: &Result<Reply, Fault>) -> io::Result<()> {
    match answer {
        Ok(Reply::Done) => println!(rt; "done"),
        Ok(Reply::Count(corners)) => println!(rt; "count {corners}"),
        Ok(Reply::Corner(cost)) => println!(rt; "corner {cost}"),
        Ok(Reply::Cone(first, second)) => println!(rt; "cone {first} {second}"),
        Ok(Reply::Cheapest(best)) => println!(rt; "{best}"),
        Ok(Reply::Route(count)) => println!(rt; "steps {count}"),
        Err(fault) => println!(rt; "{fault}"),
    }
}

/// Writes the calls that the bytes hold, thirteen bytes each, as far as there is room, and answers how many.
fn decode(encoded: &[u8], calls: &mut [Call; 64]) -> usize
    ensures { result ≤ 64 }
{
    let (chunks, _) = encoded.as_chunks();
    for (call, chunk) in calls.iter_mut().zip(chunks) {
        *call = call_of(chunk);
    }
    chunks.len().min(64)
}

/// Prints what the steps hold.
fn print_place(rt: &HostRuntime, steps: &[Step]) -> io::Result<()> {
    print!(rt; "place")?;
    for step in steps {
        print!(rt; " {step}")?;
    }
    println!(rt; "")
}

/// Prints the answers to a list of calls over the table, and then what the steps hold.
// The first 64 calls of a list are answered, and so many places hold them: a list that grows would have to be cut to 64. The
// steps begin with a step of no takeoff, so that what is printed tells where nothing was written.
fn print_calls(rt: &HostRuntime, table: Table, encoded: &[u8]) -> io::Result<()> {
    let mut calls = [Call::Settle; 64];
    let count = decode(encoded, &mut calls);
    let mut answers = [Ok(Reply::Done); 64];
    let mut steps = [Step {
        segment: 9999,
        choice: 9,
    }; 48];
    let _ = carry_out(table, &calls[..count], &mut answers, &mut steps);
    for answer in &answers[..count] {
        print_answer(rt, answer)?;
    }
    print_place(rt, &steps)
}

/// The table of the segments that a takeoff lists.
fn table_of(takeoff: &[u8]) -> Result<Table, Fault> {
    // Room for what a takeoff can hold: the reader takes no list that grows.
    let mut records = [Record::default(); 1024];
    let mut weights = [Weight::default(); 16];
    let header = read(takeoff, &mut records, &mut weights)?;
    let mut table = Table::new();
    table.fill(header.nodes, &records[..header.segments.min(1024)])?;
    Ok(table)
}

/// Prints what a list of calls answers over the network of a takeoff.
fn print_session(rt: &HostRuntime, takeoff: &[u8], encoded: &[u8]) -> io::Result<()> {
    match table_of(takeoff) {
        Ok(table) => print_calls(rt, table, encoded),
        Err(fault) => println!(rt; "{fault}"),
    }
}

/// Prints the sessions that the bytes hold: each a takeoff behind two bytes that say its length and one that says how many
/// calls stand behind it.
fn print_all(rt: &HostRuntime, bytes: &[u8]) -> io::Result<()> {
    let mut rest = bytes;
    // The sessions are numbered by hand: an iterator of their own for this one loop would be longer and no plainer.
    let mut number = 0u32;
    while let [high, low, count, more @ ..] = rest {
        let length = usize::from(u16::from_be_bytes([*high, *low]));
        let size = usize::from(*count) * 13;
        if more.len() < length + size {
            return println!(rt; "cut short");
        }
        let (takeoff, behind) = more.split_at(length);
        let (encoded, after) = behind.split_at(size);
        println!(rt; "session {number}")?;
        print_session(rt, takeoff, encoded)?;
        number = number.saturating_add(1);
        rest = after;
    }
    Ok(())
}

/// Reads the input and answers it.
fn answer(rt: &HostRuntime) -> io::Result<()> {
    let mut bytes = Vec::new(rt.alloc());
    rt.stdin().read_to_end(&mut bytes)?;
    print_all(rt, &bytes)
}

fn main(rt: HostRuntime) -> io::Result<()> {
    answer(&rt)
}
