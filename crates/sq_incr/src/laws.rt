//! What holds of tasks and their orders, each as the contract of a function that does nothing.
ghost use Rattle.std.specs.Prelude.{◌≡◌, ◌+◌, ◌*◌, ◌<◌, ℕ, Bool, List, [], ◌∷◌, ◌++◌, length, slice_get, take, Some, None};
ghost use Rattle.sq_circuit.specs.Circuits.{verdict};
ghost use Rattle.sq_circuit.specs.Invariant.{AreEarlier, IsCircuit};
ghost use Rattle.sq_circuit.specs.Nodes.{Rows};
ghost use Rattle.sq_circuit.specs.declared.circuit.Part.{Part as Known};
ghost use Rattle.sq_incr.specs.Fits.{PartsFit, PiecesFit, UnfitIsFaulty};
ghost use Rattle.sq_incr.specs.Orders.{FirstIllegal, IsLegal, IsToldBy, IsWhole, MayStand, TellsMissing, all_tasks, task};
ghost use Rattle.sq_incr.specs.Outcomes.{AllRan, AreLeft, AreTested, IsTick, Skipped, TotalsRise, least_faulty, outcome, step};
ghost use Rattle.sq_incr.specs.Play.{AnyOrderGives, HasPlayed, IsPlayable, OneMoreKeeps, StepOf, played};
ghost use Rattle.sq_incr.specs.Commits.{CommitsKeepNew, PiecesCanBePrepared};
ghost use Rattle.sq_incr.specs.Ready.{StartsReady, StaysReady};
ghost use Rattle.sq_incr.specs.TickCosts.{OrdersCostAtMost, PartsCostTheNode, TasksCostTheTick};
ghost use Rattle.sq_incr.specs.declared.task.Task.{Task as Turn};

use crate::{Pieces, Task};

/// A legal order stays legal with one more task that may stand behind it, and so does its front. An order is legal or has a
/// first task that may not stand where it does, and not both; whether a task may stand there is told by a test.
pub fn orders_are_legal_up_to_a_place()
    ensures longer { (c : List Known) (n : ℕ) (order : List Turn) (t : Turn) → IsLegal c n order → MayStand c n order t → IsLegal c n (order ++ t ∷ []) }
    ensures front { (c : List Known) (n : ℕ) (order : List Turn) → IsLegal c n order → (k : ℕ) → IsLegal c n (take k order) }
    ensures legal { (c : List Known) (n : ℕ) (order : List Turn) → ((at : ℕ) → FirstIllegal c n order at → ⊥) → IsLegal c n order }
    ensures illegal { (c : List Known) (n : ℕ) (order : List Turn) (at : ℕ) → FirstIllegal c n order at → IsLegal c n order → ⊥ }
    ensures one { (c : List Known) (n : ℕ) (order : List Turn) (at other : ℕ) → FirstIllegal c n order at → FirstIllegal c n order other → at ≡ other }
    ensures test { (c : List Known) (n : ℕ) (front : List Turn) (t : Turn) → IsToldBy c n front t }
{}

/// An order is whole exactly if no task is missing in it, and the one that is named is the first by node and then by shard. All
/// tasks by node and then by shard are a legal order, and a whole one; the task of a node has its place by both numbers.
pub fn tasks_by_node_are_an_order()
    ensures missing { (c : List Known) (n : ℕ) (order : List Turn) → TellsMissing c n order }
    ensures legal { (c : List Known) (n : ℕ) → AreEarlier c → IsLegal c n (all_tasks c n) }
    ensures whole { (c : List Known) (n : ℕ) → IsWhole c n (all_tasks c n) }
    ensures place { (c : List Known) (n i s : ℕ) → i < length c → s < n → slice_get (all_tasks c n) (i * n + s) ≡ Some (task i s) }
{}

/// Tasks that are played one after the other leave the outcomes of those that were played, and nothing of the others: one more
/// task keeps this, if it may stand there, so it holds of each legal order. If the order is whole too, all outcomes are there:
/// the order does not matter.
pub fn play_gives_outcomes<O>()
    ensures begun { (start : O) (step : StepOf O) → HasPlayed start step [] (λ i s. start) }
    ensures one_more { (c : List Known) (n : ℕ) (start : O) (step : StepOf O) → IsPlayable c n step → OneMoreKeeps c n start step }
    ensures legal { (c : List Known) (n : ℕ) (start : O) (step : StepOf O) → IsPlayable c n step → (order : List Turn) → IsLegal c n order → HasPlayed start step order (played start step order) }
    ensures whole { (c : List Known) (n : ℕ) (start : O) (step : StepOf O) → IsPlayable c n step → AnyOrderGives c n start step }
{}

/// What becomes of a task of a tick depends on those that it needs alone, so each comes to its outcome in any whole legal order.
/// If a task runs, it leaves its piece.
pub fn tasks_that_run_leave_their_pieces()
    ensures playable { (first : Bool) (c : List Known) (n : ℕ) (old : List Rows) (change : ℕ → Rows) → AreEarlier c → 0 < n → IsPlayable c n (step first c n old change) }
    ensures orders { (first : Bool) (c : List Known) (n : ℕ) (old : List Rows) (change : ℕ → Rows) → AreEarlier c → 0 < n → AnyOrderGives c n Skipped (step first c n old change) }
    ensures pieces { (first : Bool) (c : List Known) (n : ℕ) (old : List Rows) (change : ℕ → Rows) → AreEarlier c → 0 < n → AreLeft first c n old change }
{}

/// The tests of a node over all shards find a fault exactly where it has one over the new tables, if what it reads is sound; if
/// not, its tasks are not run. So the least owner of a node with a fault that its tasks tell is the verdict, and with no
/// verdict each task runs. The total of a node, by which a place is tested, rises by those of its pieces.
pub fn verdicts_over_shards()
    ensures tested { (first : Bool) (c : List Known) (n : ℕ) (old new : List Rows) (change : ℕ → Rows) → IsTick first c n old change new → AreTested first c n old change new }
    ensures verdict { (first : Bool) (c : List Known) (n : ℕ) (old new : List Rows) (change : ℕ → Rows) → IsTick first c n old change new
        → least_faulty first c n old change (outcome first c n old change) ≡ verdict c new }
    ensures totals { (first : Bool) (c : List Known) (n : ℕ) (old new : List Rows) (change : ℕ → Rows) → IsTick first c n old change new → TotalsRise first c n old change new }
    ensures ran { (first : Bool) (c : List Known) (n : ℕ) (old new : List Rows) (change : ℕ → Rows) → IsTick first c n old change new → verdict c new ≡ None → AllRan first c n old change }
{}

/// Where what a node reads is sound over the new tables, and was so over the old ones unless this is the start, its parts in each
/// shard are in the range of a weight, and so are those of how it has changed. The pieces of a node that is sound itself are in
/// range too. So a node with a piece out of range has a fault over the new tables.
pub fn pieces_of_good_changes_fit()
    ensures parts { (first : Bool) (c : List Known) (n : ℕ) (old new : List Rows) → IsCircuit c → PartsFit first c n old new }
    ensures pieces { (first : Bool) (c : List Known) (n : ℕ) (old new : List Rows) (change : ℕ → Rows) → IsTick first c n old change new → PiecesFit first c n old change new }
    ensures unfit { (first : Bool) (c : List Known) (n : ℕ) (old new : List Rows) (change : ℕ → Rows) → IsTick first c n old change new → UnfitIsFaulty first c n old change new }
{}

/// Before anything was there, empty states and totals of 0 are ready for tables that are good; and what is kept of tables without
/// a fault is ready for changes that leave good ones.
pub fn ticks_are_ready()
    ensures start { (c : List Known) → StartsReady c }
    ensures later { (c : List Known) → StaysReady c }
{}

/// Once all pieces that `play` answers were committed, each in its shard, and each total was raised by those of the pieces of its
/// node, the states keep what belongs to the new tables, and the totals are theirs.
pub fn commits_keep_the_new_tables()
    ensures { (c : List Known) → IsCircuit c → CommitsKeepNew c }
{}

/// Over n shards the parts of a node together cost what the node costs. So all tasks of a tick cost what the tick costs, and those
/// of a legal order no more, whatever the number of shards is.
pub fn tasks_cost_what_the_tick_costs()
    ensures node { (n : ℕ) → 0 < n → PartsCostTheNode n }
    ensures tasks { (c : List Known) → TasksCostTheTick c }
    ensures order { (c : List Known) → OrdersCostAtMost c }
{}

fn is_send_and_sync<T: Send + Sync>() {}

// A task may be handed to another thread, and be shared.
fn tasks_cross_threads() {
    is_send_and_sync::<Task>();
}

// So may the pieces of all tasks.
fn pieces_cross_threads() {
    is_send_and_sync::<Pieces>();
}

/// The piece of each task that `play` answers can be prepared in the state of its shard: the state has the node, and its traces
/// stay in range with the piece.
pub fn pieces_can_be_prepared()
    ensures { (c : List Known) → PiecesCanBePrepared c }
{}
