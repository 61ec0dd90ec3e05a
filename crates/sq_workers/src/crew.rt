//! The workers of a level: they are made, they work at once, and they are let go.
ghost use Rattle.std.specs.Prelude.{◌≡◌, ◌+◌, ◌<◌, ◌≤◌, [], ◌∷◌, ◌++◌, length, All, vec_len, vec_capacity};
ghost use Rattle.std.specs.List.{AllZip};
ghost use Rattle.sq_claims.specs.Claims.{fresh, total};
ghost use Rattle.sq_workers.specs.Work.{IsAtWork, HasWorked, IsHired, IsYield};

use crate::Job;
use crate::worker::{Worker, work};
use sq_base::{Gate, Steps};
use sq_claims::{Board, Pass};
use sq_value::NoMemory;
use std::alloc::Global;
use std::thread;
use std::thread::Threads;

/// What a worker leaves: the tasks that it claimed, in order, the answer to each, and whether it had
/// the memory for all.
#[derive(Drop)]
pub struct Yield<X> {
    pub claims: Vec<u32>,
    pub answers: Vec<X>,
    pub ended: Result<(), NoMemory>,
}

// Appends a value for which there is capacity, which needs no memory.
fn push_within<T>(all: &mut Vec<T>, value: T)
    requires { vec_len all.old < vec_capacity all.old }
    ensures items { all.new.items ≡ all.old.items ++ value ∷ [] }
    ensures len { vec_len all.new ≡ vec_len all.old + 1 }
    ensures capacity { vec_capacity all.old ≤ vec_capacity all.new }
{
    match all.push(value) {
        Ok(()) => {}
        Err(_) => unreachable!(),
    }
}

/// A worker with each of these passes, which are new, and with its part of the count of steps. There
/// is room for all in `crew`, so that it needs no memory.
pub fn hire<L, X>(
    alloc: Global,
    board: &Board,
    steps: &mut Steps<L>,
    mut passes: Vec<Pass>,
    crew: &mut Vec<Worker<L, X>>,
)
    requires passes { All (λ t. t ≡ fresh board.now) passes.items }
    requires room { (vec_len crew.old ≡ 0) × (length passes.items ≤ vec_capacity crew.old) }
    ensures steps { steps.new ≡ steps.old }
    ensures count { length crew.new.items ≡ length passes.items }
    ensures each { All (IsHired board.now) crew.new.items }
{
    while let Some(pass) = passes.pop() {
        let worker = Worker {
            pass,
            steps: steps.split(),
            claims: Vec::new(alloc),
            answers: Vec::new(alloc),
            ended: Ok(()),
        };
        push_within(crew, worker);
    }
}

/// All work at once, each in a thread of its own if one can be had.
pub fn work_all<R: Threads + Sync, L: Send, J: Job<L>, G: Gate>(
    rt: &R,
    board: &Board,
    job: &J,
    gate: &G,
    crew: &mut [Worker<L, Result<J::Piece, J::Fault>>],
)
    requires some { 0 < length crew.old }
    requires tasks { board.now.tasks ≡ J.tasks job.now }
    requires each { All (IsAtWork (J.answers job.now) (J.cost job.now) board.now) crew.old }
    ensures { All (λ w. HasWorked (J.answers job.now) (J.cost job.now) board.now w w.ended) crew.new }
{
    let threads = crew.len();
    thread::for_each_mut(
        rt,
        crew,
        threads,
        &|_, worker: &mut Worker<L, Result<J::Piece, J::Fault>>|
            requires { (board.now.tasks ≡ J.tasks job.now) × IsAtWork (J.answers job.now) (J.cost job.now) board.now worker.now }
            ensures { HasWorked (J.answers job.entry.now) (J.cost job.entry.now) board.entry.now worker.exit.now worker.exit.now.ended }
        { work(board, job, gate, worker) },
    );
}

/// Lets the workers go. Their steps are counted, and their passes and what they leave stand in one
/// order. There is room for both, so that it needs no memory.
pub fn release<L, J: Job<L>>(
    board: &Board,
    job: &J,
    steps: &mut Steps<L>,
    mut crew: Vec<Worker<L, Result<J::Piece, J::Fault>>>,
    passes: &mut Vec<Pass>,
    yields: &mut Vec<Yield<Result<J::Piece, J::Fault>>>,
)
    requires each { All (λ w. HasWorked (J.answers job.now) (J.cost job.now) board.now w w.ended) crew.items }
    requires passes { (passes.old.items ≡ []) × (length crew.items ≤ vec_capacity passes.old) }
    requires yields { (yields.old.items ≡ []) × (length crew.items ≤ vec_capacity yields.old) }
    ensures count { length passes.new.items ≡ length crew.items }
    ensures board { All (λ t. t.board ≡ board.now) passes.new.items }
    ensures yields { AllZip (IsYield (J.answers job.now)) passes.new.items yields.new.items }
    ensures cost { steps.new.count ≤ steps.old.count + total (λ t. total (J.cost job.now) t.claims) passes.new.items }
    ensures ledger { steps.new.ledger ≡ steps.old.ledger }
{
    while let Some(worker) = crew.pop() {
        let Worker {
            pass,
            steps: part,
            claims,
            answers,
            ended,
        } = worker;
        steps.merge(part);
        push_within(passes, pass);
        push_within(
            yields,
            Yield {
                claims,
                answers,
                ended,
            },
        );
    }
    crew.destroy_empty();
}
