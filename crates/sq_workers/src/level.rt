//! A level, run by all its workers.
ghost use Rattle.std.specs.Prelude.{◌≡◌, ◌+◌, ◌<◌, ◌≤◌, length, map, IfOk};
ghost use Rattle.sq_claims.specs.Claims.{Claimed};
ghost use Rattle.sq_workers.specs.Levels.{IsAnswered, sum_below};

use crate::Job;
use crate::crew::{hire, release, work_all};
use crate::placed::placed;
use sq_base::{Gate, Steps};
use sq_claims::Board;
use sq_value::NoMemory;
use std::alloc::Global;
use std::thread::Threads;

/// The result of each task, at its number, and the tasks of each worker, in the order of its claims.
#[derive(Drop)]
pub struct Level<P, F> {
    pub results: Vec<Result<P, F>>,
    pub claims: Vec<Vec<u32>>,
}

/// Runs all tasks of a job by so many workers.
///
/// Each worker claims tasks until none is left, and calls `gate.at(task)` before it runs one. The
/// workers run in threads of their own as far as these can be had; no want of a thread is a fault.
pub fn run_level<R: Threads + Sync, J: Job<L>, G: Gate, L: Send>(
    rt: &R,
    alloc: Global,
    job: &J,
    workers: u32,
    gate: &G,
    steps: &mut Steps<L>,
) -> Result<Level<J::Piece, J::Fault>, NoMemory>
    requires workers { (1 ≤ workers) × (workers ≤ 64) }
    ensures results { IfOk result (λ l. IsAnswered (J.answers job.now) (J.tasks job.now) l.results.items) }
    ensures workers { IfOk result (λ l. length l.claims.items ≡ workers) }
    ensures claimed { IfOk result (λ l. Claimed (J.tasks job.now) (map (λ v. v.items) l.claims.items)) }
    ensures cost { steps.new.count ≤ steps.old.count + sum_below (J.cost job.now) (J.tasks job.now) }
    ensures ledger { steps.new.ledger ≡ steps.old.ledger }
{
    let count = workers as usize;
    let (board, passes) = Board::new(alloc, job.len(), workers)?;
    let mut back = Vec::with_capacity(alloc, count)?;
    let mut yields = Vec::with_capacity(alloc, count)?;
    let mut crew = Vec::with_capacity(alloc, count)?;
    hire(alloc, &board, steps, passes, &mut crew);
    work_all(rt, &board, job, gate, &mut crew);
    release(&board, job, steps, crew, &mut back, &mut yields);
    board.close(back);
    placed(alloc, job, yields)
}
