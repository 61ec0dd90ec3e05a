//! Groups: what is projected for them, and how it is grouped.
ghost use Rattle.std.specs.Prelude.{◌≡◌, ◌++◌, ◌+◌, ◌<◌, ◌^◌, IfOk, OnOk, Some as Is, length, option_to_list, true};
ghost use Rattle.sq_bridge.specs.Small.{AreFewGroups};
ghost use Rattle.sq_bridge.specs.Groups.{behind, calls_from, group_items, group_spec, item_node, slot};
ghost use Rattle.sq_plan.specs.Drafts.{CanAdd, IsNode, kinds_of};
ghost use Rattle.sq_plan.specs.Keyed.{NewJoins, NoJoin};
ghost use Rattle.sq_plan.specs.Steps.{Becomes, node_of};
ghost use Rattle.sq_typed.specs.Fit.{grouped_kinds, grouping_fits, item_row_kinds, may_group};
ghost use Rattle.sq_typed.specs.Numbered.{call_kind};

use crate::columns::{kind_at, kind_of, kinds_of, numbers_below};
use crate::draft::Draft;
use sq_expr::{Expr, Func, Kind};
use sq_members::members_of;
use sq_ops::{AggSpec, Call};
use sq_typed::{BlockCall, Grouping};
use sq_value::NoMemory;
use sqlite_items::Items;
use std::alloc::Global;

// Puts an argument behind the items, if there is one.
fn push_argument(alloc: Global, arg: &Option<Expr>, items: &mut Items<Expr>) -> Result<(), NoMemory>
    ensures { OnOk result (items.new ≡ items.old ++ option_to_list arg.now) }
{
    if let Some(expr) = arg {
        items.push(expr.clone_expr(alloc)?)?;
    }
    Ok(())
}

// The group columns, and the arguments of the calls that have one.
fn group_items(alloc: Global, grouping: &Grouping) -> Result<Items<Expr>, NoMemory>
    ensures { IfOk result (λ items. items ≡ group_items grouping.now) }
{
    let mut items = Items::new(alloc);
    for column in grouping.columns.as_slice() {
        items.push(Expr::Column(*column))?;
    }
    for call in grouping.calls.as_slice() {
        push_argument(alloc, &call.arg, &mut items)?;
    }
    Ok(items)
}

// The column of an argument, where this one is free, and the next free one.
fn slot(free: u32, arg: &Option<Expr>) -> (u32, u32)
    requires { free + 1 < 2 ^ 32 }
    ensures slot { result.0 ≡ slot free arg.now }
    ensures behind { result.1 ≡ behind free arg.now }
{
    match arg {
        Some(_) => (free, free + 1),
        None => (0, free),
    }
}

// The calls over the columns of their arguments.
fn calls_from(alloc: Global, first: u32, calls: &[BlockCall]) -> Result<Items<Call>, NoMemory>
    requires { first + length calls.now + 1 < 2 ^ 32 }
    ensures { IfOk result (λ own. own ≡ calls_from first calls.now) }
{
    let mut own = Items::new(alloc);
    let mut free = first;
    for call in calls {
        let (arg, next) = slot(free, &call.arg);
        own.push(Call {
            func: call.func,
            arg,
        })?;
        free = next;
    }
    Ok(own)
}

fn group_spec(alloc: Global, grouping: &Grouping) -> Result<AggSpec, NoMemory>
    requires { length grouping.now.columns + length grouping.now.calls + 1 < 2 ^ 32 }
    ensures { IfOk result (λ spec. spec ≡ group_spec grouping.now) }
{
    let count = grouping.columns.len() as u32;
    let group = numbers_below(alloc, count)?;
    let calls = calls_from(alloc, count, grouping.calls.as_slice())?;
    Ok(AggSpec {
        group,
        calls,
        global: grouping.columns.is_empty(),
    })
}

// The kind of what a call gives.
fn call_kind(kinds: &[Kind], func: Func, arg: &Option<Expr>) -> Kind
    ensures { result ≡ call_kind kinds.now func arg.now }
{
    match (func, arg) {
        (Func::Min, Some(expr)) => kind_of(kinds, expr),
        (Func::Max, Some(expr)) => kind_of(kinds, expr),
        _ => Kind::Bigint,
    }
}

// The kinds of the group row.
fn grouped_kinds(
    alloc: Global,
    kinds: &[Kind],
    grouping: &Grouping,
) -> Result<Items<Kind>, NoMemory>
    ensures { IfOk result (λ own. own ≡ grouped_kinds kinds.now grouping.now) }
{
    let mut own = Items::new(alloc);
    for column in grouping.columns.as_slice() {
        own.push(kind_at(kinds, *column))?;
    }
    for call in grouping.calls.as_slice() {
        own.push(call_kind(kinds, call.func, &call.arg))?;
    }
    Ok(own)
}

impl Draft {
    // The rows of groups that HAVING keeps.
    fn grouped(&mut self, alloc: Global, input: u32, grouping: &Grouping) -> Result<u32, NoMemory>
        requires room { CanAdd 3 self.old }
        requires low { IsNode self.old input }
        requires fits { grouping_fits (kinds_of self.old input) grouping.now ≡ true }
        requires narrow { length grouping.now.columns + length grouping.now.calls + 1 < 2 ^ 32 }
        ensures adds { IfOk result (λ i. Becomes 3 self.old self.new i (grouped_kinds (kinds_of self.old input) grouping.now) (λ tables. item_node (Is grouping.now) (node_of self.old tables input))) }
        ensures keyed { IfOk result (λ i. NewJoins self.old self.new NoJoin) }
    {
        let items = group_items(alloc, grouping)?;
        let own = kinds_of(alloc, self.kinds(input), items.as_slice())?;
        let kinds = grouped_kinds(alloc, self.kinds(input), grouping)?;
        let projected = self.project(input, items, own)?;
        let spec = group_spec(alloc, grouping)?;
        let groups = self.aggregate(projected, spec, kinds)?;
        let having = members_of(alloc, &grouping.having)?;
        self.kept(alloc, groups, having)
    }

    // The rows on which the items are computed.
    pub(crate) fn item_rows(
        &mut self,
        alloc: Global,
        input: u32,
        grouping: &Option<Grouping>,
    ) -> Result<u32, NoMemory>
        requires room { CanAdd 3 self.old }
        requires low { IsNode self.old input }
        requires fits { may_group (kinds_of self.old input) grouping.now ≡ true }
        requires narrow { AreFewGroups grouping.now }
        ensures adds { IfOk result (λ i. Becomes 3 self.old self.new i (item_row_kinds (kinds_of self.old input) grouping.now) (λ tables. item_node grouping.now (node_of self.old tables input))) }
        ensures keyed { IfOk result (λ i. NewJoins self.old self.new NoJoin) }
    {
        match grouping {
            Some(grouping) => self.grouped(alloc, input, grouping),
            None => Ok(input),
        }
    }
}
