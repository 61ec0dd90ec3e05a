//! Streams: three steps of each operator, refused steps that keep the state, and the laws at operators of a test's own.
ghost use Rattle.std.specs.Prelude.{◌≡◌, IfOk};
ghost use Rattle.sq_algebra.specs.Groups.{z_sets};
ghost use Rattle.sq_algebra.specs.ZSet.{plus};
ghost use Rattle.sq_stream.specs.RowStreams.{RowStream, incremental_on_rows, sum_on_rows};
ghost use Rattle.sq_stream.specs.Streams.{delayed, integral, lifted};
ghost use Rattle.sq_value.specs.Order.{row_cmp};

use crate::rows::{LIMIT, SUM_LIMIT, check_rows, zset_of};
use sq_stream::laws::{Operator, chain_rule, linear_operators_are_incremental, sum_rule};
use sq_stream::{Delay, Differentiator, Integrator};
use sq_zset::{ZFault, ZSet};
use std::alloc::Global;
use std::process::Abort;
use std::test::Fail;

// One stage of each kind.
#[derive(Drop)]
struct Stages {
    integrator: Integrator,
    differentiator: Differentiator,
    delay: Delay,
}

// One step of all three. The differentiator is given what the integrator answers, and what it answers is checked against the change.
fn check_step(
    rt: &impl Abort,
    alloc: Global,
    stages: &mut Stages,
    change: &[(i64, i64)],
    expected: (&[(i64, i64)], &[(i64, i64)], &[(i64, i64)]),
) -> Result<(), Fail> {
    let (integrated, differentiated, delayed) = expected;
    let change = zset_of(alloc, change)?;
    let whole = stages.integrator.step(alloc, &change)?;
    check_rows(rt, alloc, &whole, integrated)?;
    let back = stages.differentiator.step(alloc, &whole)?;
    check_rows(rt, alloc, &back, differentiated)?;
    let before = stages.delay.step(alloc, &change)?;
    check_rows(rt, alloc, &before, delayed)
}

#[test]
fn three_steps_of_each(rt: HostRuntime) -> Result<(), Fail> {
    let alloc = rt.alloc();
    let mut stages = Stages {
        integrator: Integrator::new(alloc),
        differentiator: Differentiator::new(alloc),
        delay: Delay::new(alloc),
    };
    let first: &[(i64, i64)] = &[(1, 1)];
    let second: &[(i64, i64)] = &[(1, -1), (2, 2)];
    let whole: &[(i64, i64)] = &[(2, 2)];
    check_step(&rt, alloc, &mut stages, first, (first, first, &[]))?;
    check_step(&rt, alloc, &mut stages, second, (whole, second, first))?;
    check_step(&rt, alloc, &mut stages, &[], (whole, &[], second))
}

#[test]
fn a_refused_step_keeps_the_state(rt: HostRuntime) -> Result<(), Fail> {
    let alloc = rt.alloc();
    let most = zset_of(alloc, &[(1, LIMIT)])?;
    let one = zset_of(alloc, &[(1, 1)])?;
    let mut integrator = Integrator::new(alloc);
    integrator.step(alloc, &most)?;
    assert_eq!(rt;
        integrator.step(alloc, &one).err(),
        Some(ZFault::Weight { sum: SUM_LIMIT + 1 })
    );
    let none = ZSet::empty(alloc);
    let same = integrator.step(alloc, &none)?;
    check_rows(&rt, alloc, &same, &[(1, LIMIT)])
}

#[test]
fn a_difference_outside_the_range_keeps_the_state(rt: HostRuntime) -> Result<(), Fail> {
    let alloc = rt.alloc();
    let one = zset_of(alloc, &[(1, 1)])?;
    let least = zset_of(alloc, &[(1, -LIMIT)])?;
    let mut differentiator = Differentiator::new(alloc);
    differentiator.step(alloc, &one)?;
    assert_eq!(rt;
        differentiator.step(alloc, &least).err(),
        Some(ZFault::Weight {
            sum: -SUM_LIMIT - 1
        })
    );
    let none = differentiator.step(alloc, &one)?;
    check_rows(&rt, alloc, &none, &[])
}

// The answers of an integrator to these, one after the other.
fn integrate_all(alloc: Global, changes: &[ZSet]) -> Result<Vec<ZSet>, ZFault>
    ensures { IfOk result (λ answers. answers.items ≡ integral (z_sets row_cmp) changes.now) }
{
    let mut integrator = Integrator::new(alloc);
    let mut answers = Vec::new(alloc);
    for change in changes {
        let answer = integrator.step(alloc, change)?;
        answers.push(answer)?;
    }
    Ok(answers)
}

#[test]
fn a_run_of_steps_integrates(rt: HostRuntime) -> Result<(), Fail> {
    let alloc = rt.alloc();
    let first = zset_of(alloc, &[(1, 1)])?;
    let second = zset_of(alloc, &[(1, -1), (2, 2)])?;
    let answers = integrate_all(alloc, &vec![in alloc; first, second]?)?;
    assert_eq!(rt; answers.len(), 2);
    check_rows(&rt, alloc, &answers[0], &[(1, 1)])?;
    check_rows(&rt, alloc, &answers[1], &[(2, 2)])
}

// The operator that adds each member to itself.
struct Doubled;

impl Operator for Doubled {
    ghost use Rattle.sq_algebra.specs.ZSet.{plus};
    ghost use Rattle.sq_stream.specs.Streams.{lifted};

    ghost meaning = { lifted (λ z. plus z z) };
}

// The operator that answers each member one step later.
struct Later;

impl Operator for Later {
    ghost use Rattle.sq_algebra.specs.Groups.{z_sets};
    ghost use Rattle.sq_stream.specs.Streams.{delayed};
    ghost use Rattle.sq_value.specs.Order.{row_cmp};

    ghost meaning = { delayed (z_sets row_cmp) };
}

// The changes of what is doubled are the changes, doubled, and so is each law met at these two operators.
fn laws_at_operators()
    ensures linear { (s : RowStream) → incremental_on_rows (lifted (λ z. plus z z)) s ≡ lifted (λ z. plus z z) s }
    ensures chain { (s : RowStream) → incremental_on_rows (λ t. lifted (λ z. plus z z) (delayed (z_sets row_cmp) t)) s
        ≡ lifted (λ z. plus z z) (incremental_on_rows (delayed (z_sets row_cmp)) s) }
    ensures sum { (s : RowStream) → incremental_on_rows (λ t. sum_on_rows (lifted (λ z. plus z z) t) (delayed (z_sets row_cmp) t)) s
        ≡ sum_on_rows (lifted (λ z. plus z z) s) (incremental_on_rows (delayed (z_sets row_cmp)) s) }
{
    linear_operators_are_incremental::<Doubled>();
    chain_rule::<Later, Doubled>();
    sum_rule::<Doubled, Later>();
}

#[test]
fn the_laws_hold_at_operators(_: HostRuntime) {
    laws_at_operators();
}
