//! `Pieces`: what all tasks of an order left, and why an order leaves none.
ghost use Rattle.std.specs.Prelude.{◌≡◌, ◌<◌, length, slice_get, List, Some};
ghost use Rattle.sq_incr.specs.Played.{HasPiece};
ghost use Rattle.sq_incr.specs.declared.store.Slot.{Slot as Told};
ghost use Rattle.sq_incr.specs.declared.pieces.PlayRefusal.TheVariants.{Memory};

use crate::Task;
use crate::store::{Line, Slot};
use sq_states::Piece;
use sq_value::NoMemory;
use std::marker::Model;

/// The pieces of all tasks, by node and then by shard. Contracts see them as what is noted of the tasks, each of which ran.
#[derive(Debug, Drop)]
pub struct Pieces {
    pub(crate) lines: Vec<Line>,
}

impl Model for Pieces {
    ghost use Rattle.std.specs.Prelude.{List};
    ghost use Rattle.sq_incr.specs.Played.{AreAllRun};
    ghost use Rattle.sq_incr.specs.contracts.store.Line as line;
    ghost use Rattle.std.specs.Coded.{coded_list};
    ghost use Rattle.sq_incr.specs.declared.store.Slot.{Slot as Told};

    ghost Value = { List (List Told) };

    ghost coded = { coded_list (line.the_row).coded };

    ghost view = { λ p. p.lines.items };

    ghost invariant = { λ p. AreAllRun p.lines.items };
}

impl Pieces {
    /// The piece of a task. Takes no memory.
    pub fn at(&self, task: Task) -> &Piece
        requires node { task.node < length self.now }
        requires shard { (line : List Told) → slice_get self.now task.node ≡ Some line → task.shard < length line }
        ensures { HasPiece self.now task result.now }
    {
        match self.lines[task.node as usize].at(task.shard) {
            Slot::Ran { piece } => piece,
            Slot::Open => unreachable!(),
            Slot::Skipped => unreachable!(),
            Slot::Broken => unreachable!(),
        }
    }
}

/// Why an order of tasks leaves no pieces.
#[derive(Clone, Copy, Debug, PartialEq, Eq)]
pub enum PlayRefusal {
    /// The task at the place `at`, from 0, is the first that is repeated, out of range, or stands before one that it needs.
    NotLegal { at: u32 },
    /// The order is legal, and `task` is the first by node and then by shard that is missing.
    Missing { task: Task },
    /// A number leaves its range; `view` is the first view to blame.
    Range { view: u32 },
    /// Memory ran out.
    Memory,
}

impl From<NoMemory> for PlayRefusal {
    ghost from_gives = { λ _ refusal. refusal ≡ Memory };

    fn from(_: NoMemory) -> PlayRefusal {
        PlayRefusal::Memory
    }
}
