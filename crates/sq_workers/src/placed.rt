//! What the workers leave, with each answer at its task's place.
ghost use Rattle.std.specs.Prelude.{◌≡◌, ◌<◌, length, map, All, IfOk, OnOk, Ok, IsSome, Some};
ghost use Rattle.std.specs.List.{AllZip};
ghost use Rattle.sq_claims.specs.Claims.{Claimed};
ghost use Rattle.sq_workers.specs.Levels.{IsAnswered};
ghost use Rattle.sq_workers.specs.Work.{filled};

use crate::crew::Yield;
use crate::{Job, Level};
use sq_value::NoMemory;
use std::alloc::Global;

// Whether all workers had the memory that they needed.
fn all_ended<X>(yields: &[Yield<X>]) -> Result<(), NoMemory>
    ensures { OnOk result (All (λ y. y.ended ≡ Ok tt) yields.now) }
{
    let mut i = 0;
    while i < yields.len() {
        yields[i].ended?;
        i += 1;
    }
    Ok(())
}

/// The level that the workers leave, if all had the memory that they needed.
pub fn placed<L, J: Job<L>>(
    alloc: Global,
    job: &J,
    yields: Vec<Yield<Result<J::Piece, J::Fault>>>,
) -> Result<Level<J::Piece, J::Fault>, NoMemory>
    requires claimed { All (λ y. y.ended ≡ Ok tt) yields.items → Claimed (J.tasks job.now) (map (λ y. y.claims.items) yields.items) }
    requires answers { All (λ y. OnOk y.ended (AllZip (J.answers job.now) y.claims.items y.answers.items)) yields.items }
    ensures results { IfOk result (λ l. IsAnswered (J.answers job.now) (J.tasks job.now) l.results.items) }
    ensures claimed { IfOk result (λ l. Claimed (J.tasks job.now) (map (λ v. v.items) l.claims.items)) }
    ensures count { IfOk result (λ l. length l.claims.items ≡ length yields.items) }
{
    all_ended(&yields)?;
    let mut slots = vacant(alloc, job.len() as usize)?;
    let mut claims = Vec::with_capacity(alloc, yields.len())?;
    for one in yields {
        let Yield {
            claims: numbers,
            answers,
            ended: _,
        } = one;
        fill(&mut slots, &numbers, answers);
        claims.push(numbers)?;
    }
    let results = taken(alloc, slots)?;
    Ok(Level { results, claims })
}

// Empty places.
fn vacant<X: Drop>(alloc: Global, count: usize) -> Result<Vec<Option<X>>, NoMemory>
    ensures { IfOk result (λ v. length v.items ≡ count) }
{
    let mut slots = Vec::with_capacity(alloc, count)?;
    let mut left = count;
    while 0 < left {
        slots.push(None)?;
        left -= 1;
    }
    Ok(slots)
}

// Puts each answer at the place of its number.
fn fill<X: Drop>(slots: &mut [Option<X>], numbers: &[u32], mut answers: Vec<X>)
    requires places { All (λ i. i < length slots.old) numbers.now }
    requires each { length answers.items ≡ length numbers.now }
    ensures { slots.new ≡ filled slots.old numbers.now answers.items }
{
    while let Some(answer) = answers.pop() {
        let task = numbers[answers.len()];
        slots[task as usize] = Some(answer);
    }
}

// What stands in the places, all of which are full.
fn taken<X: Drop>(alloc: Global, slots: Vec<Option<X>>) -> Result<Vec<X>, NoMemory>
    requires { All (λ slot. IsSome slot) slots.items }
    ensures { IfOk result (λ v. map Some v.items ≡ slots.items) }
{
    let mut all = Vec::with_capacity(alloc, slots.len())?;
    for slot in slots {
        match slot {
            Some(value) => all.push(value)?,
            None => unreachable!(),
        }
    }
    Ok(all)
}
