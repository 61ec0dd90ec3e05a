//! The program prints on inputs that were worked out by hand what the reference prints.
use crate::inputs::{EXAMPLES, PLANS, RUNS};
use crate::listed::run_by_lists;
use crate::same::agrees;
use std::alloc::Global;
use std::process::Abort;
use std::test::Fail;
use std::thread::Threads;

fn all_agree<R: Threads + Sync + Abort>(
    rt: &R,
    alloc: Global,
    inputs: &[&'static str],
) -> Result<(), Fail> {
    for input in inputs {
        let run = run_by_lists(alloc, input.as_bytes())?;
        assert!(rt; agrees(rt, alloc, input.as_bytes(), &run)?, "{input}");
    }
    Ok(())
}

#[test]
fn inputs_of_runs(rt: HostRuntime) -> Result<(), Fail> {
    all_agree(&rt, rt.alloc(), &RUNS)
}

#[test]
fn examples(rt: HostRuntime) -> Result<(), Fail> {
    all_agree(&rt, rt.alloc(), &EXAMPLES)
}

#[test]
fn programs_over_tables(rt: HostRuntime) -> Result<(), Fail> {
    all_agree(&rt, rt.alloc(), &PLANS)
}
