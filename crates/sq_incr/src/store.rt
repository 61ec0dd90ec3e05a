//! What became of each task so far: `Slot` for one task, and `Line` for those of a node in all shards.
ghost use Rattle.std.specs.Prelude.{◌≡◌, ◌<◌, length, replicate, slice_get, slice_set, Some, IfOk};
ghost use Rattle.std.specs.List.{list_all, list_any};
ghost use Rattle.sq_incr.specs.Slots.{is_broken, is_done, is_run};
ghost use Rattle.sq_incr.specs.declared.store.Slot.TheVariants.{Open};

use sq_states::Piece;
use sq_value::NoMemory;
use std::alloc::Global;
use std::marker::Model;

/// What became of one task.
#[derive(Debug, Drop)]
pub enum Slot {
    /// It was not played yet.
    Open,
    /// It was not run, since a node that it reads has a fault or was not run.
    Skipped,
    /// A number left its range.
    Broken,
    /// It ran.
    Ran { piece: Piece },
}

impl Slot {
    /// Whether the task was played.
    pub fn is_done(&self) -> bool
        ensures { result ≡ is_done self.now }
    {
        match self {
            Slot::Open => false,
            Slot::Skipped => true,
            Slot::Broken => true,
            Slot::Ran { piece: _ } => true,
        }
    }

    /// Whether it ran.
    pub fn is_run(&self) -> bool
        ensures { result ≡ is_run self.now }
    {
        match self {
            Slot::Open => false,
            Slot::Skipped => false,
            Slot::Broken => false,
            Slot::Ran { piece: _ } => true,
        }
    }

    /// Whether a number left its range.
    pub fn is_broken(&self) -> bool
        ensures { result ≡ is_broken self.now }
    {
        match self {
            Slot::Open => false,
            Slot::Skipped => false,
            Slot::Broken => true,
            Slot::Ran { piece: _ } => false,
        }
    }
}

/// What became of the tasks of one node, by shard. Contracts see it as the list of these.
#[derive(Debug, Drop)]
pub struct Line {
    slots: Vec<Slot>,
}

impl Model for Line {
    ghost use Rattle.std.specs.Prelude.{List};
    ghost use Rattle.std.specs.Coded.{coded_list};
    ghost use Rattle.sq_incr.specs.contracts.store.Slot as slot;
    ghost use Rattle.sq_incr.specs.declared.store.Slot.{Slot as Told};

    ghost Value = { List Told };

    ghost coded = { coded_list (slot.the_row).coded };

    ghost view = { λ l. l.slots.items };
}

impl Line {
    /// What became of the task in this shard.
    pub fn at(&self, shard: u32) -> &Slot
        requires { shard < length self.now }
        ensures { slice_get self.now shard ≡ Some result.now }
    {
        &self.slots[shard as usize]
    }

    /// Notes what became of the task in this shard.
    pub fn put(&mut self, shard: u32, slot: Slot)
        requires { shard < length self.old }
        ensures { self.new ≡ slice_set self.old shard slot }
    {
        self.slots[shard as usize] = slot;
    }

    /// Whether all tasks were played.
    pub fn are_done(&self) -> bool
        ensures { result ≡ list_all is_done self.now }
    {
        for slot in &self.slots {
            if !slot.is_done() {
                return false;
            }
        }
        true
    }

    /// Whether all tasks ran.
    pub fn are_run(&self) -> bool
        ensures { result ≡ list_all is_run self.now }
    {
        for slot in &self.slots {
            if !slot.is_run() {
                return false;
            }
        }
        true
    }

    /// Whether some number left its range.
    pub fn is_broken(&self) -> bool
        ensures { result ≡ list_any is_broken self.now }
    {
        for slot in &self.slots {
            if slot.is_broken() {
                return true;
            }
        }
        false
    }
}

/// A line for each of so many nodes, of tasks that were not played yet.
pub fn empty_lines(alloc: Global, nodes: u32, shards: u32) -> Result<Vec<Line>, NoMemory>
    ensures { IfOk result (λ lines. lines.items ≡ replicate nodes (replicate shards Open)) }
{
    let mut lines = Vec::with_capacity(alloc, nodes as usize)?;
    for _ in 0..nodes {
        lines.push(empty_line(alloc, shards)?)?;
    }
    Ok(lines)
}

// A line of tasks that were not played yet.
fn empty_line(alloc: Global, shards: u32) -> Result<Line, NoMemory>
    ensures { IfOk result (λ line. line ≡ replicate shards Open) }
{
    let mut slots = Vec::with_capacity(alloc, shards as usize)?;
    for _ in 0..shards {
        slots.push(Slot::Open)?;
    }
    Ok(Line { slots })
}
