//! Laws of streams of Z-sets, each as the contract of a function that does nothing.
ghost use Rattle.std.specs.Prelude.{◌≡◌};
ghost use Rattle.sq_value.specs.Order.{row_cmp};
ghost use Rattle.sq_algebra.specs.ZSet.{zero};
ghost use Rattle.sq_algebra.specs.Groups.{z_sets, IsAdditive};
ghost use Rattle.sq_stream.specs.Steps.{run, integrator_step, differentiator_step, delay_step};
ghost use Rattle.sq_stream.specs.RowStreams.{RowStream, RowZSet, incremental_on_rows, sum_on_rows};
ghost use Rattle.sq_stream.specs.Streams.{delayed, differences, integral, lifted};

use crate::{Delay, Differentiator, Integrator};

/// A type that stands for an operator on streams.
pub trait Operator {
    ghost use Rattle.sq_stream.specs.RowStreams.{RowStream};

    /// The stream that the operator makes of a stream.
    ghost meaning: { RowStream → RowStream };
}

/// The answers of steps, one after the other from the empty state, are integral, differences and delay of what came.
pub fn steps_run_through_streams()
    ensures integral { (s : RowStream) → run (integrator_step (z_sets row_cmp)) (zero row_cmp) s ≡ integral (z_sets row_cmp) s }
    ensures differences { (s : RowStream) → run (differentiator_step (z_sets row_cmp)) (zero row_cmp) s ≡ differences (z_sets row_cmp) s }
    ensures delay { (s : RowStream) → run delay_step (zero row_cmp) s ≡ delayed (z_sets row_cmp) s }
{}

/// Integration and differentiation undo each other.
pub fn integration_and_differentiation_are_inverse()
    ensures differentiated_first { (s : RowStream) → integral (z_sets row_cmp) (differences (z_sets row_cmp) s) ≡ s }
    ensures integrated_first { (s : RowStream) → differences (z_sets row_cmp) (integral (z_sets row_cmp) s) ≡ s }
{}

/// The chain rule: the incremental version of a composition is the composition of the incremental versions.
pub fn chain_rule<P: Operator, Q: Operator>()
    ensures { (s : RowStream) → incremental_on_rows (λ t. Q.meaning (P.meaning t)) s ≡ incremental_on_rows Q.meaning (incremental_on_rows P.meaning s) }
{}

/// The sum rule: the incremental version of a sum, taken member by member, is the sum of the incremental versions.
pub fn sum_rule<P: Operator, Q: Operator>()
    ensures { (s : RowStream) → incremental_on_rows (λ t. sum_on_rows (P.meaning t) (Q.meaning t)) s
        ≡ sum_on_rows (incremental_on_rows P.meaning s) (incremental_on_rows Q.meaning s) }
{}

/// An operator that takes an additive function to each member is its own incremental version.
pub fn linear_operators_are_incremental<Q: Operator>()
    ensures { (f : RowZSet → RowZSet) → IsAdditive (z_sets row_cmp) (z_sets row_cmp) f
        → ((s : RowStream) → Q.meaning s ≡ lifted f s) → (s : RowStream) → incremental_on_rows Q.meaning s ≡ Q.meaning s }
{}

fn is_send_and_sync<T: Send + Sync>() {}

// Each type of data may be handed to another thread, and be shared.
fn data_crosses_threads() {
    is_send_and_sync::<Delay>();
    is_send_and_sync::<Differentiator>();
    is_send_and_sync::<Integrator>();
}
