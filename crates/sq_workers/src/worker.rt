//! One worker, with what it has done so far.
ghost use Rattle.std.specs.Prelude.{◌≡◌};
ghost use Rattle.sq_workers.specs.Work.{IsAtWork, HasWorked};

use crate::Job;
use sq_base::{Gate, Steps};
use sq_claims::{Board, Pass};
use sq_value::NoMemory;

/// A worker: its pass, its part of the count of steps, the tasks that it claimed, in order, and the
/// answer to each.
pub struct Worker<L, X> {
    pub pass: Pass,
    pub steps: Steps<L>,
    pub claims: Vec<u32>,
    pub answers: Vec<X>,
    pub ended: Result<(), NoMemory>,
}

/// Claims tasks and runs them, until all are claimed, or memory runs out.
pub fn work<L, J: Job<L>, G: Gate>(
    board: &Board,
    job: &J,
    gate: &G,
    worker: &mut Worker<L, Result<J::Piece, J::Fault>>,
)
    requires tasks { board.now.tasks ≡ J.tasks job.now }
    requires worker { IsAtWork (J.answers job.now) (J.cost job.now) board.now worker.old }
    ensures { HasWorked (J.answers job.now) (J.cost job.now) board.now worker.new worker.new.ended }
{
    worker.ended = run_claims(board, job, gate, worker);
}

// The same, with the want of memory as its answer.
fn run_claims<L, J: Job<L>, G: Gate>(
    board: &Board,
    job: &J,
    gate: &G,
    worker: &mut Worker<L, Result<J::Piece, J::Fault>>,
) -> Result<(), NoMemory>
    requires tasks { board.now.tasks ≡ J.tasks job.now }
    requires worker { IsAtWork (J.answers job.now) (J.cost job.now) board.now worker.old }
    ensures { HasWorked (J.answers job.now) (J.cost job.now) board.now worker.new result }
{
    while let Some(task) = board.claim(&mut worker.pass) {
        gate.at(task);
        let answer = job.run(task, &mut worker.steps);
        worker.claims.push(task)?;
        worker.answers.push(answer)?;
    }
    Ok(())
}
