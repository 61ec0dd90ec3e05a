//! Jobs, of which each task may be run by any worker.
ghost use Rattle.std.specs.Prelude.{◌≡◌, ℕ, ◌+◌, ◌<◌, ◌≤◌, Result};

use sq_base::Steps;

/// The work of a level: tasks by their numbers from 0, none of which needs another.
pub trait Job<L>: Sync {
    type Piece: Send + Drop;

    type Fault: Send + Drop;

    /// How many tasks it has.
    ghost tasks: { Self → ℕ };

    /// What the answer to a task may be.
    ghost answers: { Self → ℕ → Result Self.Piece Self.Fault → Type 0 };

    /// The most steps that a task may take.
    ghost cost: { Self → ℕ → ℕ };

    /// How many tasks it has.
    fn len(&self) -> u32
        ensures { result ≡ tasks self.now };

    /// Runs a task, and counts its steps.
    fn run(&self, task: u32, steps: &mut Steps<L>) -> Result<Self::Piece, Self::Fault>
        requires task { task < tasks self.now }
        ensures answer { answers self.now task result }
        ensures cost { steps.new.count ≤ steps.old.count + cost self.now task }
        ensures ledger { steps.new.ledger ≡ steps.old.ledger };
}
