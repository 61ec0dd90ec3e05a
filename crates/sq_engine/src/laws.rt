//! What holds of the updates that an engine admits, each as the contract of a function that does nothing.
ghost use Rattle.std.specs.Prelude.{◌≡◌, ◌<◌, ◌≤ℤ◌, ◌+ℤ◌, ℕ, List, length, pos};
ghost use Rattle.std.specs.List.{AllByRecursion};
ghost use Rattle.std.specs.declared.result.Result.TheVariants.{Ok as Made, Err as Lacking};
ghost use Rattle.sq_algebra.specs.ZSet.{total};
ghost use Rattle.sq_circuit.specs.Circuits.{table_at};
ghost use Rattle.sq_circuit.specs.Nodes.{Rows};
ghost use Rattle.sq_engine.specs.Admitting.{AreOfLists, in_z_sets, inserted, made, netted, outcome};
ghost use Rattle.sq_engine.specs.Engines.{State, moved, with_changes};
ghost use Rattle.sq_typed.specs.Tables.{Tables, after};
ghost use Rattle.sq_typed.specs.declared.update.Update.{Update as Change};

use crate::{AdmitRefusal, Delta, Engine, TickRefusal};

/// Updates make of the Z-sets of some tables what they make of the tables, row by row: the Z-sets of the tables after them, or the
/// line of the first that deletes a row which is not there.
pub fn updates_of_z_sets_are_updates_of_lists()
    ensures { (updates : List Change) (tables : Tables) → AllByRecursion (λ u. u.table < length tables) updates → made (in_z_sets tables) updates ≡ outcome (after tables updates) }
{}

/// An engine whose tables are the Z-sets of some lists follows the lists: after updates that it admits, and the tick with their
/// changes, its tables are the Z-sets of the lists after the updates; and a delete that it refuses is the first that the lists refuse.
pub fn engines_follow_lists()
    ensures tick { (s : State) (old : Tables) (us : List Change) (delta : List Rows) → AreOfLists s.tables old us → made s.tables us ≡ Made (with_changes s.tables delta) → outcome (after old us) ≡ Made (moved s delta).tables }
    ensures absent { (s : State) (old : Tables) (us : List Change) (line : ℕ) → AreOfLists s.tables old us → made s.tables us ≡ Lacking line → after old us ≡ Lacking line }
{}

/// A table grows by no more rows than updates put into it.
#[tactic(auto, using(crate::proofs::Admitted::total_made))]
pub fn tables_grow_by_what_is_put_in()
    ensures { (tables : List Rows) (updates : List Change) (t : ℕ) → total (table_at (with_changes tables (netted (length tables) updates)) t) ≤ℤ (total (table_at tables t) +ℤ pos (inserted t updates)) }
{}

fn is_send_and_sync<T: Send + Sync>() {}

// An engine may be handed to another thread, and be shared.
fn engines_cross_threads() {
    is_send_and_sync::<Engine>();
}

// So may changes of its tables, and why it refuses.
fn changes_and_refusals_cross_threads() {
    is_send_and_sync::<Delta>();
    is_send_and_sync::<AdmitRefusal>();
    is_send_and_sync::<TickRefusal>();
}
