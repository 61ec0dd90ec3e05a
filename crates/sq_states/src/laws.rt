//! What holds of states and steps, each as the contract of a function that does nothing.
ghost use Rattle.std.specs.Prelude.{◌≡◌, ◌↔◌, ℕ, ℤ, List, None, Some, true, slice_get};
ghost use Rattle.sq_algebra.specs.Keyed.{Shards, cut};
ghost use Rattle.sq_algebra.specs.ZSet.{plus};
ghost use Rattle.sq_circuit.specs.Circuits.{node_at};
ghost use Rattle.sq_circuit.specs.Nodes.{Rows, none};
ghost use Rattle.sq_circuit.specs.declared.circuit.Part.{Part as Known};
ghost use Rattle.sq_circuit.specs.declared.node.Node.{Node as Operator};
ghost use Rattle.sq_ops.specs.Aggregates.{first_sum_outside, group_of};
ghost use Rattle.sq_ops.specs.Extensions.{first_value_outside};
ghost use Rattle.sq_ops.specs.declared.aggregate.AggSpec.{AggSpec as Aggregating};
ghost use Rattle.sq_states.specs.Committing.{CommitsKeep, PiecesStay};
ghost use Rattle.sq_states.specs.Empty.{empty_state, empty_states};
ghost use Rattle.sq_states.specs.Keeps.{KeepsNode};
ghost use Rattle.sq_states.specs.declared.kept.NodeState.{NodeState as Kept};
ghost use Rattle.sq_value.specs.declared.value.Value.{Value as Datum};

use crate::{Piece, Ready, States};

/// Before anything was there, the state of each node keeps what belongs to no rows, in any shard.
pub fn empty_states_keep_nothing()
    ensures begins { (S : Shards (List Datum)) (s : ℕ) (n : Operator) → KeepsNode true S s n (empty_state n) none none }
    ensures state { (c : List Known) (i : ℕ) (n : Operator) → node_at c i ≡ Some n → slice_get (empty_states c) i ≡ Some (empty_state n) }
{}

/// No SUM is outside the range of BIGINT exactly if none is in any shard; and none is over no rows.
pub fn sums_are_tested_in_shards()
    ensures shard { (S : Shards (List Datum)) (spec : Aggregating) (z : Rows) → first_sum_outside spec z ≡ None → (s : ℕ) → first_sum_outside spec (cut S (group_of spec) s z) ≡ None }
    ensures all { (S : Shards (List Datum)) (spec : Aggregating) (z : Rows) → ((s : ℕ) → first_sum_outside spec (cut S (group_of spec) s z) ≡ None) → first_sum_outside spec z ≡ None }
    ensures none { (spec : Aggregating) → first_sum_outside spec none ≡ None }
{}

/// No number that is tested of a row is outside the range of BIGINT exactly if none is in any shard. If none is over the old rows,
/// none is over the changed rows exactly if none is over the new ones.
pub fn values_are_tested_in_shards()
    ensures shard { (tested : List Datum → List ℤ) (S : Shards (List Datum)) (key : List Datum → List Datum) (z : Rows) → first_value_outside tested z ≡ None → (s : ℕ) → first_value_outside tested (cut S key s z) ≡ None }
    ensures all { (tested : List Datum → List ℤ) (S : Shards (List Datum)) (key : List Datum → List Datum) (z : Rows) → ((s : ℕ) → first_value_outside tested (cut S key s z) ≡ None) → first_value_outside tested z ≡ None }
    ensures changed { (tested : List Datum → List ℤ) (y d : Rows) → first_value_outside tested y ≡ None → (first_value_outside tested d ≡ None) ↔ (first_value_outside tested (plus y d) ≡ None) }
{}

/// A state that takes what was prepared for a piece keeps what belongs to the new rows.
pub fn commits_keep_the_new_rows()
    ensures { (n : Operator) (kept : Kept) → CommitsKeep n kept }
{}

/// The traces of a node stay in range with the change of a piece, if the new rows that it reads are in range.
pub fn pieces_stay_in_range()
    ensures { (n : Operator) (kept : Kept) → PiecesStay n kept }
{}

fn is_send_and_sync<T: Send + Sync>() {}

// The states may be handed to another thread, and be shared.
fn states_cross_threads() {
    is_send_and_sync::<States>();
}

// So may a piece.
fn pieces_cross_threads() {
    is_send_and_sync::<Piece>();
}

// So may what is prepared.
fn prepared_traces_cross_threads() {
    is_send_and_sync::<Ready>();
}
