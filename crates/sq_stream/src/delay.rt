//! The operator on streams that answers each Z-set one step later.
ghost use Rattle.std.specs.Prelude.{◌≡◌, IfOk, OnErr};
ghost use Rattle.sq_value.specs.Order.{row_cmp};
ghost use Rattle.sq_algebra.specs.ZSet.{zero};
ghost use Rattle.sq_stream.specs.Steps.{delay_step};
ghost use Rattle.sq_zset.specs.Range.{IsInRange};

use sq_value::NoMemory;
use sq_zset::{Group, ZSet};
use std::alloc::Global;
use std::marker::Model;
use std::mem;

/// Answers each Z-set of a stream one step later. Contracts see it as what came last, which is its state.
#[derive(Debug, Drop)]
pub struct Delay {
    state: ZSet,
}

impl Model for Delay {
    ghost use Rattle.std.specs.Prelude.{List};
    ghost use Rattle.std.specs.Coded.{coded_list};
    ghost use Rattle.sq_value.specs.declared.value.Value.{Value as Datum};
    ghost use Rattle.sq_value.specs.contracts.value.Value as datum;
    ghost use Rattle.sq_value.specs.Order.{row_cmp};
    ghost use Rattle.sq_algebra.specs.ZSet.{ZSet as Weighted, code};
    ghost use Rattle.sq_zset.specs.Range.{IsInRange};

    ghost Value = { Weighted (List Datum) row_cmp };

    ghost coded = { code (coded_list (datum.the_row).coded) };

    ghost view = { λ d. d.state };

    ghost invariant = { λ d. IsInRange d.state };
}

impl Delay {
    /// A delay to which nothing came yet. Takes no memory.
    pub fn new(alloc: Global) -> Delay
        ensures { result ≡ zero row_cmp }
    {
        Delay {
            state: ZSet::empty(alloc),
        }
    }

    /// Answers the state, and keeps `z` as its state, or is refused with the state as before when memory runs out. The
    /// cost is linear in the size of `z`.
    pub fn step(&mut self, alloc: Global, z: &ZSet) -> Result<ZSet, NoMemory>
        ensures step { IfOk result (λ answer. (answer, self.new) ≡ delay_step self.old z.now) }
        ensures in_range { IfOk result IsInRange }
        ensures kept { OnErr result (self.new ≡ self.old) }
    {
        let next = z.clone_group(alloc)?;
        Ok(mem::replace(&mut self.state, next))
    }
}
