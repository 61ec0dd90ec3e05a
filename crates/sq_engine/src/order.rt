//! All tasks of a tick, in order.
ghost use Rattle.std.specs.Prelude.{◌≡◌, ◌++◌, IfOk, OnOk};
ghost use Rattle.sq_engine.specs.Ticking.{all_of};
ghost use Rattle.sq_incr.specs.Orders.{tasks_of};

use sq_incr::Task;
use sq_value::NoMemory;
use std::alloc::Global;

/// All tasks of so many nodes in so many shards, by node and then by shard.
pub fn all_tasks(alloc: Global, nodes: u32, shards: u32) -> Result<Vec<Task>, NoMemory>
    ensures { IfOk result (λ order. order.items ≡ all_of nodes shards) }
{
    let mut order = Vec::new(alloc);
    for node in 0..nodes {
        push_tasks(node, shards, &mut order)?;
    }
    Ok(order)
}

// Puts the tasks of a node behind the others.
fn push_tasks(node: u32, shards: u32, order: &mut Vec<Task>) -> Result<(), NoMemory>
    ensures { OnOk result (order.new.items ≡ order.old.items ++ tasks_of shards node) }
{
    for shard in 0..shards {
        order.push(Task { node, shard })?;
    }
    Ok(())
}
