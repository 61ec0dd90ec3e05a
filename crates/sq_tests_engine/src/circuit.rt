//! `CREATE TABLE t (a BIGINT); CREATE VIEW v AS SELECT COUNT(*) AS n, SUM(a) AS s FROM t`, as a circuit.
ghost use Rattle.std.specs.Prelude.{◌≡◌, ◌++◌, ◌∷◌, [], IfOk, OnOk};
ghost use Rattle.sq_tests_engine.specs.Totals.{inner, table, totals, totals_of_numbers, view};

use sq_circuit::{Circuit, Node, Part};
use sq_expr::{Func, Kind};
use sq_ops::{AggSpec, Call};
use sq_value::NoMemory;
use sqlite_items::Items;
use std::alloc::Global;

// How many rows there are, and the sum of their numbers.
fn totals(alloc: Global) -> Result<AggSpec, NoMemory>
    ensures { IfOk result (λ spec. spec ≡ totals) }
{
    let count = Call {
        func: Func::CountAll,
        arg: 0,
    };
    let sum = Call {
        func: Func::Sum,
        arg: 0,
    };
    let calls = Items::from_slice(alloc, &[count, sum])?;
    Ok(AggSpec {
        group: Items::new(alloc),
        calls,
        global: true,
    })
}

// A part of a circuit.
fn part(
    alloc: Global,
    node: Node,
    kinds: &[Kind],
    place: bool,
    owner: Option<u32>,
) -> Result<Part, NoMemory>
    ensures { IfOk result (λ part. part ≡ record { node = node; kinds = kinds.now; place = place; owner = owner }) }
{
    let kinds = Items::from_slice(alloc, kinds)?;
    Ok(Part {
        node,
        kinds,
        place,
        owner,
    })
}

// Puts the table behind the parts.
fn push_table(alloc: Global, parts: &mut Vec<Part>) -> Result<(), NoMemory>
    ensures { OnOk result (parts.new.items ≡ parts.old.items ++ table ∷ []) }
{
    let node = Node::Table { table: 0 };
    parts.push(part(alloc, node, &[Kind::Bigint], false, None)?)?;
    Ok(())
}

// Puts the totals of the table behind the parts.
fn push_totals(alloc: Global, parts: &mut Vec<Part>) -> Result<(), NoMemory>
    ensures { OnOk result (parts.new.items ≡ parts.old.items ++ inner ∷ []) }
{
    let spec = totals(alloc)?;
    let node = Node::Aggregate { input: 0, spec };
    parts.push(part(alloc, node, &[Kind::Bigint, Kind::Bigint], true, Some(0))?)?;
    Ok(())
}

// Puts a view of the totals behind the parts.
fn push_view(alloc: Global, parts: &mut Vec<Part>) -> Result<(), NoMemory>
    ensures { OnOk result (parts.new.items ≡ parts.old.items ++ view ∷ []) }
{
    let node = Node::View { input: 1, view: 0 };
    parts.push(part(alloc, node, &[Kind::Bigint, Kind::Bigint], false, Some(0))?)?;
    Ok(())
}

/// The table, its totals, and a view of them.
pub fn totals_of_numbers(alloc: Global) -> Result<Circuit, NoMemory>
    ensures { IfOk result (λ c. c ≡ totals_of_numbers) }
{
    let mut parts = Vec::new(alloc);
    push_table(alloc, &mut parts)?;
    push_totals(alloc, &mut parts)?;
    push_view(alloc, &mut parts)?;
    Ok(Circuit::of(parts))
}
