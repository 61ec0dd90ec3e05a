//! A tick over shards beside the values over whole tables, in several orders.
ghost use Rattle.std.specs.Prelude.{◌≤◌};
ghost use Rattle.sq_circuit.specs.Invariant.{IsGood};
ghost use Rattle.sq_incr.specs.Plays.{HaveShape};

use crate::circuits::planned;
use crate::drawn::tables_of;
use crate::orders::{by_node, drawn_order};
use crate::played::{are_same, change_of, played};
use sq_circuit::Circuit;
use sq_good::are_good;
use sq_incr::{Pieces, PlayRefusal, Task};
use sq_whole::{EvalFault, whole_eval};
use sq_zset::ZSet;
use std::alloc::Global;
use std::process::Abort;
use std::test::Fail;

// The change of each node over all shards is its value over the whole tables.
fn check_pieces(
    rt: &impl Abort,
    alloc: Global,
    values: &[ZSet],
    pieces: &Pieces,
    nodes: u32,
    shards: u32,
) -> Result<(), Fail>
    requires shape { HaveShape nodes shards pieces.now }
{
    assert_eq!(rt; values.len(), nodes as usize);
    for node in 0..nodes {
        let change = change_of(alloc, pieces, nodes, shards, node)?;
        if (node as usize) < values.len() {
            assert!(rt;
                are_same(&change, &values[node as usize]),
                "node {node} over {shards} shards"
            );
        }
    }
    Ok(())
}

// What a tick in this order gives is what the whole tables give.
fn check_order(
    rt: &impl Abort,
    alloc: Global,
    circuit: &Circuit,
    tables: &[ZSet],
    shards: u32,
    order: &[Task],
) -> Result<(), Fail>
    requires good { IsGood circuit.now tables.now }
    requires shards { (1 ≤ shards) × (shards ≤ 64) }
{
    if order.len() > 1_000_000 {
        return Err(Fail::from("too many tasks"));
    }
    let values = whole_eval(alloc, circuit, tables);
    match played(alloc, circuit, tables, shards, order) {
        Ok(pieces) => match values {
            Ok(values) => check_pieces(rt, alloc, &values, &pieces, circuit.len(), shards),
            Err(_) => Err(Fail::from("no values")),
        },
        Err(PlayRefusal::Range { view }) => {
            assert!(rt; values_blame(&values, view), "another view");
            Ok(())
        }
        Err(_) => Err(Fail::from("no pieces")),
    }
}

// Whether the view is to blame over the whole tables.
fn values_blame(values: &Result<Vec<ZSet>, EvalFault>, view: u32) -> bool {
    match values {
        Err(EvalFault::Range { view: blamed }) => *blamed == view,
        Err(EvalFault::Memory) => false,
        Ok(_) => false,
    }
}

// The same over so many shards, by node and in an order that is drawn.
fn check_shards(
    rt: &impl Abort,
    alloc: Global,
    circuit: &Circuit,
    tables: &[ZSet],
    shards: u32,
    seed: u64,
) -> Result<(), Fail>
    requires good { IsGood circuit.now tables.now }
    requires shards { (1 ≤ shards) × (shards ≤ 64) }
{
    let plain = by_node(alloc, circuit.len(), shards)?;
    check_order(rt, alloc, circuit, tables, shards, &plain)?;
    let order = drawn_order(alloc, circuit, shards, seed)?;
    check_order(rt, alloc, circuit, tables, shards, &order)
}

/// Over these tables a tick gives what the whole tables give, whatever the number of shards and the order are.
pub fn check_tables(
    rt: &impl Abort,
    alloc: Global,
    circuit: &Circuit,
    tables: &[ZSet],
    seed: u64,
) -> Result<(), Fail> {
    if !are_good(circuit, tables) {
        return Err(Fail::from("no tables of the circuit"));
    }
    check_shards(rt, alloc, circuit, tables, 1, seed)?;
    check_shards(rt, alloc, circuit, tables, 2, seed)?;
    check_shards(rt, alloc, circuit, tables, 3, seed)?;
    check_shards(rt, alloc, circuit, tables, 7, seed)?;
    check_shards(rt, alloc, circuit, tables, 64, seed)
}

/// So does it over ten lists of tables that are drawn.
pub fn check_program(rt: &impl Abort, alloc: Global, program: &str) -> Result<(), Fail> {
    let circuit = planned(alloc, program)?;
    for seed in 0..10 {
        let tables = tables_of(alloc, &circuit, seed)?;
        check_tables(rt, alloc, &circuit, &tables, seed)?;
    }
    Ok(())
}
