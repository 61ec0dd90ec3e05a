//! The operator on streams that answers the sum of all Z-sets so far.
ghost use Rattle.std.specs.Prelude.{◌≡◌, ℤ, Some, IfOk, OnErr};
ghost use Rattle.sq_value.specs.Order.{row_cmp};
ghost use Rattle.sq_algebra.specs.ZSet.{zero, plus};
ghost use Rattle.sq_algebra.specs.Groups.{z_sets};
ghost use Rattle.sq_stream.specs.Steps.{integrator_step};
ghost use Rattle.sq_zset.specs.Range.{first_outside, IsInRange};

use sq_zset::{Group, ZFault, ZSet};
use std::alloc::Global;
use std::marker::Model;

/// Adds up a stream of Z-sets. Contracts see it as the sum of what came so far, which is its state.
#[derive(Debug, Drop)]
pub struct Integrator {
    state: ZSet,
}

impl Model for Integrator {
    ghost use Rattle.std.specs.Prelude.{List};
    ghost use Rattle.std.specs.Coded.{coded_list};
    ghost use Rattle.sq_value.specs.declared.value.Value.{Value as Datum};
    ghost use Rattle.sq_value.specs.contracts.value.Value as datum;
    ghost use Rattle.sq_value.specs.Order.{row_cmp};
    ghost use Rattle.sq_algebra.specs.ZSet.{ZSet as Weighted, code};

    ghost Value = { Weighted (List Datum) row_cmp };

    ghost coded = { code (coded_list (datum.the_row).coded) };

    ghost view = { λ i. i.state };
}

impl Integrator {
    /// An integrator to which nothing came yet. Takes no memory.
    pub fn new(alloc: Global) -> Integrator
        ensures { result ≡ zero row_cmp }
    {
        Integrator {
            state: ZSet::empty(alloc),
        }
    }

    /// Answers the state plus `z`, and keeps the answer as its state. The cost is linear in the sizes of the two.
    ///
    /// The answer is `Weight` exactly if a weight of that sum lies outside the range, with the first such weight in the
    /// order of rows, and `Memory` when memory runs out. Then the state is as before.
    pub fn step(&mut self, alloc: Global, z: &ZSet) -> Result<ZSet, ZFault>
        ensures step { IfOk result (λ answer. (answer, self.new) ≡ integrator_step (z_sets row_cmp) self.old z.now) }
        ensures in_range { IfOk result IsInRange }
        ensures outside { (sum : ℤ) → result ≡ Err (ZFault.Weight sum) → first_outside (plus self.old z.now) ≡ Some sum }
        ensures kept { OnErr result (self.new ≡ self.old) }
    {
        let answer = self.state.plus(alloc, z)?;
        self.state = answer.clone_group(alloc)?;
        Ok(answer)
    }
}
