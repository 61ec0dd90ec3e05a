//! What the tests share: rows and Z-sets of a few numbers, and circuits over two tables of them.
ghost use Rattle.std.specs.Prelude.{◌≡◌, ◌*◌, ◌≤◌, ◌^◌, ◌≤ℤ◌, pos, length, IsTrue, IfOk, OnOk, ◌++◌, ◌∷◌, []};
ghost use Rattle.std.specs.List.{All};
ghost use Rattle.sq_algebra.specs.ZSet.{entries};
ghost use Rattle.sq_expr.specs.Kinds.{AreOfKinds};
ghost use Rattle.sq_tests_circuits.specs.Small.{AreLists, IsSample, IsTable, inner, numbers, small, table};
ghost use Rattle.sq_zset.specs.Pairs.{mass};

use sq_circuit::{Circuit, Node, Part};
use sq_expr::{Kind, is_of_kinds};
use sq_value::{NoMemory, Row, Value};
use sq_whole::{EvalFault, whole_eval};
use sq_zset::{Pair, ZFault, ZSet};
use sqlite_items::Items;
use std::alloc::Global;
use std::process::Abort;
use std::test::Fail;

/// The values of the nodes, or the fault; nothing if the tables are none that a circuit takes.
pub type Answer = Option<Result<Vec<ZSet>, EvalFault>>;

/// A row of these numbers, with NULL for `None`.
pub fn row_of(alloc: Global, numbers: &[Option<i64>]) -> Result<Row, NoMemory> {
    let mut values = Vec::new(alloc);
    for number in numbers {
        values.push(number.map_or(Value::Null, Value::Int))?;
    }
    Ok(Row::of(values))
}

// Puts a row of these numbers with the weight behind the pairs.
fn push_row(
    alloc: Global,
    numbers: &[Option<i64>],
    weight: i64,
    pairs: &mut Vec<Pair>,
) -> Result<(), NoMemory>
    requires { mass pairs.now.items ≤ length pairs.now.items * 2 ^ 63 }
    ensures { OnOk result (mass pairs.new.items ≤ length pairs.new.items * 2 ^ 63) }
{
    let row = row_of(alloc, numbers)?;
    pairs.push(Pair {
        row,
        weight: i128::from(weight),
    })?;
    Ok(())
}

/// Rows of one number, with weights.
pub fn zset_of(alloc: Global, items: &[(i64, i64)]) -> Result<ZSet, ZFault> {
    let mut pairs = Vec::new(alloc);
    for item in items {
        push_row(alloc, &[Some(item.0)], item.1, &mut pairs)?;
    }
    ZSet::consolidate(alloc, pairs)
}

/// Whether all rows are of these kinds.
pub fn are_of_kinds(z: &ZSet, kinds: &[Kind]) -> bool
    ensures { IsTrue result → All (λ e. AreOfKinds e.0 kinds.now) (entries z.now) }
{
    for i in 0..z.len() {
        let (row, _) = z.at(i);
        if !is_of_kinds(row, kinds) {
            return false;
        }
    }
    true
}

/// Whether no weight is below 0.
pub fn has_no_weight_below_zero(z: &ZSet) -> bool
    ensures { IsTrue result → All (λ e. pos 0 ≤ℤ e.1) (entries z.now) }
{
    for i in 0..z.len() {
        let (_, weight) = z.at(i);
        if weight < 0 {
            return false;
        }
    }
    true
}

/// The Z-set has so many rows, and the row of these numbers has this weight.
pub fn check_row(
    rt: &impl Abort,
    alloc: Global,
    z: &ZSet,
    rows: usize,
    numbers: &[Option<i64>],
    weight: i64,
) -> Result<(), Fail> {
    assert_eq!(rt; z.len(), rows);
    let row = row_of(alloc, numbers)?;
    assert_eq!(rt; z.weight_of(&row), weight);
    Ok(())
}

// Whether the rows are of one BIGINT, and a table may have them.
fn is_table(z: &ZSet) -> bool
    ensures { IsTrue result → IsTable z.now }
{
    if !are_of_kinds(z, &[Kind::Bigint]) {
        return false;
    }
    if !has_no_weight_below_zero(z) {
        return false;
    }
    if z.total() > 1 << 61 {
        return false;
    }
    true
}

// Whether these are two tables of one BIGINT.
fn are_lists(tables: &[ZSet]) -> bool
    ensures { IsTrue result → AreLists tables.now }
{
    if tables.len() != 2 {
        return false;
    }
    if !is_table(&tables[0]) {
        return false;
    }
    if !is_table(&tables[1]) {
        return false;
    }
    true
}

/// A part of a circuit, with kinds of its own.
pub fn part(
    alloc: Global,
    node: Node,
    kinds: &[Kind],
    place: bool,
    owner: Option<u32>,
) -> Result<Part, NoMemory>
    ensures { IfOk result (λ part. part ≡ record { node = node; kinds = kinds.now; place = place; owner = owner }) }
{
    let kinds = Items::from_slice(alloc, kinds)?;
    Ok(Part {
        node,
        kinds,
        place,
        owner,
    })
}

/// Puts the two tables behind the parts.
pub fn push_tables(alloc: Global, parts: &mut Vec<Part>) -> Result<(), NoMemory>
    ensures { OnOk result (parts.new.items ≡ parts.old.items ++ table 0 ∷ table 1 ∷ []) }
{
    parts.push(part(
        alloc,
        Node::Table { table: 0 },
        &[Kind::Bigint],
        false,
        None,
    )?)?;
    parts.push(part(
        alloc,
        Node::Table { table: 1 },
        &[Kind::Bigint],
        false,
        None,
    )?)?;
    Ok(())
}

/// Puts a node of one BIGINT behind the parts.
pub fn push_inner(
    alloc: Global,
    node: Node,
    place: bool,
    owner: u32,
    parts: &mut Vec<Part>,
) -> Result<(), NoMemory>
    ensures { OnOk result (parts.new.items ≡ parts.old.items ++ inner node numbers place owner ∷ []) }
{
    parts.push(part(alloc, node, &[Kind::Bigint], place, Some(owner))?)?;
    Ok(())
}

/// The circuit of two tables, this node, and a view of it.
pub fn small_circuit(
    alloc: Global,
    node: Node,
    own: &[Kind],
    place: bool,
) -> Result<Circuit, NoMemory>
    requires { IsSample (small node own.now place) }
    ensures { IfOk result IsSample }
{
    let mut parts = Vec::new(alloc);
    push_tables(alloc, &mut parts)?;
    parts.push(part(alloc, node, own, place, Some(0))?)?;
    parts.push(part(alloc, Node::View { input: 2, view: 0 }, own, false, Some(0))?)?;
    Ok(Circuit::of(parts))
}

/// The values of the nodes over these two tables.
pub fn values_of(alloc: Global, circuit: &Circuit, tables: &[ZSet]) -> Answer
    requires { IsSample circuit.now }
{
    if !are_lists(tables) {
        return None;
    }
    Some(whole_eval(alloc, circuit, tables))
}

/// What a circuit gives over these two tables of one number.
pub fn answer_of(
    alloc: Global,
    circuit: &Circuit,
    first: &[(i64, i64)],
    second: &[(i64, i64)],
) -> Result<Answer, Fail>
    requires { IsSample circuit.now }
{
    let tables = [zset_of(alloc, first)?, zset_of(alloc, second)?];
    Ok(values_of(alloc, circuit, &tables))
}

/// The Z-set of the node has so many rows, and the row of these numbers has this weight.
pub fn check_node(
    rt: &impl Abort,
    alloc: Global,
    answer: Answer,
    node: usize,
    rows: usize,
    numbers: &[Option<i64>],
    weight: i64,
) -> Result<(), Fail> {
    match answer {
        Some(Ok(values)) => {
            assert!(rt; node < values.len(), "no node");
            check_row(rt, alloc, &values[node], rows, numbers, weight)
        }
        _ => {
            assert!(rt; false, "no values");
            Ok(())
        }
    }
}

/// The view that is out of range, if one is.
pub fn blamed(answer: Answer) -> Option<u32> {
    match answer {
        Some(Err(EvalFault::Range { view })) => Some(view),
        _ => None,
    }
}
