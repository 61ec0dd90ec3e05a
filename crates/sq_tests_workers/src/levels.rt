//! Levels, run by workers in threads of their own: any schedule gives the same results.
ghost use Rattle.std.specs.Prelude.{◌≤◌};

use sq_base::{FreeGate, Gate, Steps};
use sq_value::NoMemory;
use sq_workers::{Job, Level, run_level};
use std::alloc::Global;
use std::process::Abort;
use std::sync::atomic::{AtomicU64, Ordering};
use std::test::Fail;
use std::thread;
use std::thread::Threads;

// Each task doubles its number, but task 1 ends in a fault.
#[derive(Drop)]
struct Doubles {
    tasks: u32,
}

impl<L> Job<L> for Doubles {
    ghost use Rattle.std.specs.Prelude.{◌≡◌, ◌*◌, IfOk};

    type Piece = u64;

    type Fault = u32;

    ghost tasks = { λ job. job.tasks };

    ghost answers = { λ job task answer. IfOk answer (λ piece. piece ≡ 2 * task) };

    ghost cost = { λ job task. 1 };

    fn len(&self) -> u32 {
        self.tasks
    }

    fn run(&self, task: u32, steps: &mut Steps<L>) -> Result<u64, u32> {
        steps.tick();
        if task == 1 {
            Err(7)
        } else {
            Ok(2 * (task as u64))
        }
    }
}

// The level of such a job, and how many steps were counted.
fn level_of<R: Threads + Sync, G: Gate>(
    rt: &R,
    alloc: Global,
    tasks: u32,
    workers: u32,
    gate: &G,
) -> Result<(Level<u64, u32>, u64), NoMemory>
    requires { (1 ≤ workers) × (workers ≤ 64) }
{
    let mut steps = Steps::begin(());
    let level = run_level(rt, alloc, &Doubles { tasks }, workers, gate, &mut steps);
    let count = steps.count();
    steps.end();
    Ok((level?, count))
}

// Whether each task below the number of counters stands in one list, once, and each list ascends.
fn stand_once(claims: &[Vec<u32>], counters: &mut [u32]) -> bool {
    for list in claims {
        let mut free = 0u32;
        for task in list.iter() {
            let place = *task as usize;
            if *task < free || counters.len() <= place {
                return false;
            }
            counters[place] = counters[place].saturating_add(1);
            free = task.saturating_add(1);
        }
    }
    counters.iter().all(|count| *count == 1)
}

// Whether each result is that of the task at whose place it stands.
fn stand_in_place(results: &[Result<u64, u32>]) -> bool {
    let mut number = 0u64;
    for result in results {
        let expected = if number == 1 {
            Err(7)
        } else {
            Ok(number.wrapping_mul(2))
        };
        if *result != expected {
            return false;
        }
        number = number.wrapping_add(1);
    }
    true
}

#[test]
fn each_task_is_run_once_whatever_the_number_of_workers(rt: HostRuntime) -> Result<(), Fail> {
    let alloc = rt.alloc();
    for (tasks, workers) in [(3, 5), (0, 3), (1, 1), (10_000, 64)] {
        let (level, steps) = level_of(&rt, alloc, tasks, workers, &FreeGate)?;
        let mut counters = vec![in alloc; 0; tasks as usize]?;
        assert_eq!(rt; level.results.len(), tasks as usize);
        assert_eq!(rt; level.claims.len(), workers as usize);
        assert_eq!(rt; steps, tasks as u64);
        assert!(rt; stand_in_place(&level.results));
        assert!(rt; stand_once(&level.claims, &mut counters));
    }
    Ok(())
}

// A gate at which each call waits until a second one has come, for a bounded number of turns.
#[derive(Drop)]
struct Pair {
    calls: AtomicU64,
    alone: AtomicU64,
}

impl Gate for Pair {
    fn at(&self, _task: u32) {
        self.calls.fetch_add(1, Ordering::SeqCst);
        for _turn in 0..10_000_000u32 {
            if 2 <= self.calls.load(Ordering::SeqCst) {
                return;
            }
            thread::yield_now();
        }
        self.alone.fetch_add(1, Ordering::SeqCst);
    }
}

// While the first worker waits at the gate, the second claims the other task and runs it.
#[test]
fn two_workers_work_at_once(rt: HostRuntime) -> Result<(), Fail> {
    let gate = Pair {
        calls: AtomicU64::new(0),
        alone: AtomicU64::new(0),
    };
    let (level, _) = level_of(&rt, rt.alloc(), 2, 2, &gate)?;
    assert_eq!(rt; gate.alone.load(Ordering::SeqCst), 0);
    assert!(rt; level.claims.iter().all(|list| list.len() == 1));
    assert!(rt; stand_in_place(&level.results));
    Ok(())
}
