//! `CREATE TABLE t (a INTEGER); CREATE VIEW v AS SELECT * FROM t`, as a circuit.
ghost use Rattle.std.specs.Prelude.{◌≡◌, ◌∷◌, [], IsTrue, IfOk};
ghost use Rattle.sq_circuit.specs.Invariant.{table_and_view};
ghost use Rattle.sq_expr.specs.declared.expr.Kind.TheVariants.{Integer};
ghost use Rattle.sq_tests_circuits.specs.Small.{IsTableOf};

use crate::circuits::{Answer, are_of_kinds, check_node, has_no_weight_below_zero, part, zset_of};
use sq_circuit::{Circuit, Node};
use sq_expr::Kind;
use sq_value::NoMemory;
use sq_whole::whole_eval;
use sq_zset::ZSet;
use std::alloc::Global;
use std::test::Fail;

// A table of one INTEGER, and a view of it.
fn table_with_view(alloc: Global) -> Result<Circuit, NoMemory>
    ensures { IfOk result (λ c. c ≡ table_and_view (Integer ∷ [])) }
{
    let mut parts = Vec::new(alloc);
    let table = part(
        alloc,
        Node::Table { table: 0 },
        &[Kind::Integer],
        false,
        None,
    )?;
    parts.push(table)?;
    let view = part(
        alloc,
        Node::View { input: 0, view: 0 },
        &[Kind::Integer],
        false,
        Some(0),
    )?;
    parts.push(view)?;
    Ok(Circuit::of(parts))
}

// Whether the rows are of one INTEGER, and a table may have them.
fn is_table_of_integers(z: &ZSet) -> bool
    ensures { IsTrue result → IsTableOf (Integer ∷ []) z.now }
{
    if !are_of_kinds(z, &[Kind::Integer]) {
        return false;
    }
    if !has_no_weight_below_zero(z) {
        return false;
    }
    if z.total() > 1 << 61 {
        return false;
    }
    true
}

// What the circuit gives over one table of one INTEGER.
fn shown(alloc: Global, circuit: &Circuit, tables: &[ZSet]) -> Answer
    requires { circuit.now ≡ table_and_view (Integer ∷ []) }
{
    if tables.len() != 1 {
        return None;
    }
    if !is_table_of_integers(&tables[0]) {
        return None;
    }
    Some(whole_eval(alloc, circuit, tables))
}

#[test]
fn a_view_of_a_table_shows_its_rows(rt: HostRuntime) -> Result<(), Fail> {
    let alloc = rt.alloc();
    let circuit = table_with_view(alloc)?;
    let tables = [zset_of(alloc, &[(1, 2)])?];
    let answer = shown(alloc, &circuit, &tables);
    check_node(&rt, alloc, answer, 1, 1, &[Some(1)], 2)
}
