//! The first and the last row of a key that is left after a change of the key's rows.
ghost use Rattle.std.specs.Prelude.{◌≡◌, IfOk, MatchOption};
ghost use Rattle.sq_trace.specs.Extremes.{weight_after, IsLeast, IsGreatest, IsKeptNowhere, StepsFor};

use crate::Trace;
use crate::kept::first_of;
use crate::side::Side;
use crate::trace::step;
use sq_base::Steps;
use sq_value::{NoMemory, Row};
use sq_zset::ZSet;
use std::alloc::Global;

impl Trace<i64> {
    /// The first row of a key whose weights in the trace and in a change of the key's rows add up to more than 0, if there is one, or
    /// `NoMemory` when memory runs out.
    ///
    /// Takes one step, and at most one for each row of the change. Of the trace and the change, only that row is copied.
    pub fn least_of<L>(
        &self,
        alloc: Global,
        key: &Row,
        change: &ZSet,
        steps: &mut Steps<L>,
    ) -> Result<Option<Row>, NoMemory>
        ensures ok { IfOk result (λ answer. MatchOption answer (IsKeptNowhere (weight_after key.now self.now change.now)) (IsLeast (weight_after key.now self.now change.now))) }
        ensures count { StepsFor change.now steps.old.count steps.new.count }
        ensures ledger { steps.new.ledger ≡ steps.old.ledger }
    {
        steps.tick();
        let (answer, tested) = first_of(alloc, Side::Least, self.parts(), key, change)?;
        step(steps, tested);
        Ok(answer)
    }

    /// The last row of a key whose weights in the trace and in a change of the key's rows add up to more than 0, if there is one, or
    /// `NoMemory` when memory runs out.
    ///
    /// Takes one step, and at most one for each row of the change. Of the trace and the change, only that row is copied.
    pub fn greatest_of<L>(
        &self,
        alloc: Global,
        key: &Row,
        change: &ZSet,
        steps: &mut Steps<L>,
    ) -> Result<Option<Row>, NoMemory>
        ensures ok { IfOk result (λ answer. MatchOption answer (IsKeptNowhere (weight_after key.now self.now change.now)) (IsGreatest (weight_after key.now self.now change.now))) }
        ensures count { StepsFor change.now steps.old.count steps.new.count }
        ensures ledger { steps.new.ledger ≡ steps.old.ledger }
    {
        steps.tick();
        let (answer, tested) = first_of(alloc, Side::Greatest, self.parts(), key, change)?;
        step(steps, tested);
        Ok(answer)
    }
}
