//! The operator on streams that answers the difference to the Z-set before.
ghost use Rattle.std.specs.Prelude.{◌≡◌, ℤ, Some, IfOk, OnErr};
ghost use Rattle.sq_value.specs.Order.{row_cmp};
ghost use Rattle.sq_algebra.specs.ZSet.{zero, minus};
ghost use Rattle.sq_algebra.specs.Groups.{z_sets};
ghost use Rattle.sq_stream.specs.Steps.{differentiator_step};
ghost use Rattle.sq_zset.specs.Range.{first_outside, IsInRange};

use sq_zset::{Group, ZFault, ZSet};
use std::alloc::Global;
use std::marker::Model;

/// Answers how a stream of Z-sets changes from step to step. Contracts see it as what came last, which is its state.
#[derive(Debug, Drop)]
pub struct Differentiator {
    state: ZSet,
}

impl Model for Differentiator {
    ghost use Rattle.std.specs.Prelude.{List};
    ghost use Rattle.std.specs.Coded.{coded_list};
    ghost use Rattle.sq_value.specs.declared.value.Value.{Value as Datum};
    ghost use Rattle.sq_value.specs.contracts.value.Value as datum;
    ghost use Rattle.sq_value.specs.Order.{row_cmp};
    ghost use Rattle.sq_algebra.specs.ZSet.{ZSet as Weighted, code};

    ghost Value = { Weighted (List Datum) row_cmp };

    ghost coded = { code (coded_list (datum.the_row).coded) };

    ghost view = { λ d. d.state };
}

impl Differentiator {
    /// A differentiator to which nothing came yet. Takes no memory.
    pub fn new(alloc: Global) -> Differentiator
        ensures { result ≡ zero row_cmp }
    {
        Differentiator {
            state: ZSet::empty(alloc),
        }
    }

    /// Answers `z` less the state, and keeps `z` as its state. The cost is linear in the sizes of the two.
    ///
    /// The answer is `Weight` exactly if a weight of that difference lies outside the range, with the first such weight
    /// in the order of rows, and `Memory` when memory runs out. Then the state is as before.
    pub fn step(&mut self, alloc: Global, z: &ZSet) -> Result<ZSet, ZFault>
        ensures step { IfOk result (λ answer. (answer, self.new) ≡ differentiator_step (z_sets row_cmp) self.old z.now) }
        ensures in_range { IfOk result IsInRange }
        ensures outside { (sum : ℤ) → result ≡ Err (ZFault.Weight sum) → first_outside (minus z.now self.old) ≡ Some sum }
        ensures kept { OnErr result (self.new ≡ self.old) }
    {
        let answer = z.minus(alloc, &self.state)?;
        self.state = z.clone_group(alloc)?;
        Ok(answer)
    }
}
