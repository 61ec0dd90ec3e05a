//! Whole runs over sources and sinks in memory: each line of `cases.csv` is a run, whose input and what it has to bring stand in
//! files beside the table. Prints a line for each case: that it agrees, or how it differs.
#![tactic(auto)]

mod case;
mod cut;
mod each_call;
mod play;
mod wanted;
mod watched;

use case::Case;
use each_call::{count_failing_reads, count_failing_writes};
use play::{Outcome, play};
use std::alloc::Global;
use std::fs;
use std::rt::Files;
use std::thread::Threads;
use wanted::{Wanted, read_wanted};
use watched::{count_bytes_in_time, count_cuttings};

fn main(rt: HostRuntime) -> anyhow::Result<()> {
    let table = fs::read_to_string(&rt, "cases.csv")?;
    // The first line names the columns.
    for line in table.as_str().lines().skip(1) {
        run_case(&rt, rt.alloc(), Case { line })?;
    }
    Ok(())
}

// Runs a case as often as it asks, and prints how it went.
fn run_case<R: Threads + Sync + Files + AllocGlobal + Print>(
    rt: &R,
    alloc: Global,
    case: Case<'_>,
) -> anyhow::Result<()> {
    let wanted = read_wanted(rt, alloc, case.name())?;
    let input = wanted::read_input(rt, alloc, case.input())?;
    match case.each() {
        "each read" => {
            let count = count_failing_reads(rt, alloc, case, input.as_slice(), &wanted)?;
            println!(rt; "{}: {count} reads agree", case.name())?;
        }
        "each write" => {
            let count = count_failing_writes(rt, alloc, case, input.as_slice(), &wanted)?;
            println!(rt; "{}: {count} writes agree", case.name())?;
        }
        "each cutting" => {
            let count = count_cuttings(rt, alloc, input.as_slice(), &wanted)?;
            println!(rt; "{}: {count} cuttings agree", case.name())?;
        }
        "each byte" => {
            let count = count_bytes_in_time(rt, alloc, input.as_slice(), &wanted)?;
            println!(rt; "{}: {count} bytes agree", case.name())?;
        }
        _ => {
            let outcome = play(rt, alloc, case, input.as_slice())?;
            tell(rt, case.name(), &outcome, &wanted)?;
        }
    }
    Ok(())
}

fn tell<R: Print>(rt: &R, name: &str, outcome: &Outcome, wanted: &Wanted) -> anyhow::Result<()> {
    if wanted.agrees(outcome) {
        println!(rt; "{name} agrees")?;
    } else {
        println!(rt; "{name} differs: status {}", outcome.status.code())?;
        show(rt, outcome.out.taken())?;
        show(rt, outcome.err.taken())?;
    }
    Ok(())
}

fn show<R: Print>(rt: &R, bytes: &[u8]) -> anyhow::Result<()> {
    match std::str::from_utf8(bytes) {
        Ok(text) => print!(rt; "{text}")?,
        Err(_) => println!(rt; "(no UTF-8)")?,
    }
    Ok(())
}
