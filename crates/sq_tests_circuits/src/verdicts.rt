//! Places at their limit, and which of two views with a fault is named.
ghost use Rattle.std.specs.Prelude.{IfOk};
ghost use Rattle.sq_tests_circuits.specs.Small.{IsSample, two_sums};

use crate::circuits::{answer_of, blamed, check_node, push_inner, push_tables};
use sq_circuit::{Circuit, Node};
use sq_value::NoMemory;
use std::alloc::Global;
use std::process::Abort;
use std::test::Fail;

// Half of what a place may list.
const HALF: i64 = 1 << 60;

// Two sums of tables, the first for the view 1 and the second for the view 0.
fn two_sums(alloc: Global) -> Result<Circuit, NoMemory>
    ensures { IfOk result IsSample }
{
    let mut parts = Vec::new(alloc);
    push_tables(alloc, &mut parts)?;
    push_inner(alloc, Node::Plus { left: 0, right: 1 }, true, 1, &mut parts)?;
    push_inner(alloc, Node::Plus { left: 0, right: 0 }, true, 0, &mut parts)?;
    push_inner(
        alloc,
        Node::View { input: 3, view: 0 },
        false,
        0,
        &mut parts,
    )?;
    push_inner(
        alloc,
        Node::View { input: 2, view: 1 },
        false,
        1,
        &mut parts,
    )?;
    Ok(Circuit::of(parts))
}

// The view that is blamed if the tables have so many rows.
fn blamed_for(alloc: Global, first: i64, second: i64) -> Result<Option<u32>, Fail> {
    let circuit = two_sums(alloc)?;
    let answer = answer_of(alloc, &circuit, &[(1, first)], &[(1, second)])?;
    Ok(blamed(answer))
}

fn check_blame(
    rt: &impl Abort,
    alloc: Global,
    first: i64,
    second: i64,
    view: Option<u32>,
) -> Result<(), Fail> {
    let found = blamed_for(alloc, first, second)?;
    assert!(rt; found == view, "another view");
    Ok(())
}

#[test]
fn a_place_takes_two_to_the_61_rows_and_no_more(rt: HostRuntime) -> Result<(), Fail> {
    let alloc = rt.alloc();
    check_blame(&rt, alloc, HALF, HALF, None)?;
    check_blame(&rt, alloc, HALF, HALF + 1, Some(1))
}

#[test]
fn the_earlier_of_two_views_with_a_fault_is_named(rt: HostRuntime) -> Result<(), Fail> {
    let alloc = rt.alloc();
    check_blame(&rt, alloc, HALF + 1, HALF + 1, Some(0))
}

#[test]
fn a_full_place_is_shown(rt: HostRuntime) -> Result<(), Fail> {
    let alloc = rt.alloc();
    let circuit = two_sums(alloc)?;
    let answer = answer_of(alloc, &circuit, &[(1, HALF)], &[(1, HALF)])?;
    check_node(&rt, alloc, answer, 5, 1, &[Some(1)], 2 * HALF)
}
