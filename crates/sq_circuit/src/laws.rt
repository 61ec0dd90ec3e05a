//! What holds of circuits, each as the contract of a function that does nothing.
ghost use Rattle.std.specs.Prelude.{◌≡◌, ◌+◌, ◌<◌, ◌≤◌, ◌^◌, ◌++◌, [], ◌∷◌, ℕ, Bool, List, cond, length, slice_get, Some, None, true, false};
ghost use Rattle.std.specs.List.{position};
ghost use Rattle.sq_algebra.specs.Keyed.{Shards};
ghost use Rattle.sq_expr.specs.declared.expr.Kind.{Kind as ColumnKind};
ghost use Rattle.sq_value.specs.declared.value.Value.{Value as Datum};
ghost use Rattle.sq_zset.specs.Range.{IsInRange};
ghost use Rattle.sq_circuit.specs.Along.{least_below, lesser};
ghost use Rattle.sq_circuit.specs.Begun.{AreTables, IsBegun, IsEnded, IsGrown, IsNext, ReadsThese, is_faulty, is_fine, made_of};
ghost use Rattle.sq_circuit.specs.Circuits.{has_fault, is_sound, owner_at, verdict, whole};
ghost use Rattle.sq_circuit.specs.Invariant.{AreEarlier, HasKinds, IsCircuit, IsGood, IsListed, IsPart, IsSoundAt, is_table, table_and_view, view_count};
ghost use Rattle.sq_circuit.specs.Listed.{HasList, IsListedPart};
ghost use Rattle.sq_circuit.specs.NodeLaws.{IsLawful};
ghost use Rattle.sq_circuit.specs.Nodes.{Rows, left_source, right_source};
ghost use Rattle.sq_circuit.specs.Pieces.{AddUpToChanges, AreChanged};
ghost use Rattle.sq_circuit.specs.Verdicts.{AreTold, IsAtMost, IsMadeOfReads, IsToBlame, source_sound, unsound_owner};
ghost use Rattle.sq_circuit.specs.declared.circuit.Part.{Part as Known};
ghost use Rattle.sq_circuit.specs.declared.node.Node.{Node as Operator};

use crate::{Changes, Circuit, LinearOp, Node, Part};

/// Every kind of node adds up over the parts in all shards, by the keys of the node, and changes by these keys; over no
/// rows there are its standing rows alone. `IsLawful` has these laws by name, and no law above has to tell kinds apart.
pub fn every_node_is_lawful()
    ensures { (n : Operator) → IsLawful n }
{}

/// Over all shards the pieces of each node add up to the change of its Z-set, whatever the shards are, also if a row's key
/// is another one at each node. At the start, before which nothing was shown, they add up to the Z-set.
pub fn pieces_add_up_to_changes()
    ensures { (first : Bool) (c : List Known) → AreEarlier c → (S : Shards (List Datum)) (old : List Rows) (change : ℕ → Rows) (new : List Rows) → AreChanged first old change new → AddUpToChanges first c S old change new }
{}

/// A node depends on what it reads alone: its Z-set is its operator over it, it has a fault by what it reads and its
/// Z-set, and it is sound if it has no fault and what it reads is sound.
pub fn nodes_depend_on_what_they_read()
    ensures reads { (c : List Known) (tables : List Rows) (i : ℕ) (p : Known) → AreEarlier c → slice_get c i ≡ Some p → IsMadeOfReads c tables i p }
    ensures earlier { (c : List Known) → IsCircuit c → AreEarlier c }
{}

/// More nodes behind leave the Z-sets, faults and soundness of the others.
pub fn growth_leaves_nodes()
    ensures value { (c more : List Known) (tables : List Rows) (i : ℕ) → i < length c → whole (c ++ more) tables i ≡ whole c tables i }
    ensures fault { (c more : List Known) (tables : List Rows) → AreEarlier c → (i : ℕ) → i < length c → has_fault (c ++ more) tables i ≡ has_fault c tables i }
    ensures sound { (c more : List Known) (tables : List Rows) → AreEarlier c → (i : ℕ) → i < length c → is_sound (c ++ more) tables i ≡ is_sound c tables i }
{}

/// A sound node has no fault, and what it reads is sound. Over good tables its rows are of its kinds, and their weights in
/// range.
pub fn sound_nodes_have_sound_inputs()
    ensures faultless { (c : List Known) → IsCircuit c → (tables : List Rows) (i : ℕ) (p : Known) → slice_get c i ≡ Some p → is_sound c tables i ≡ true → has_fault c tables i ≡ false }
    ensures left { (c : List Known) → IsCircuit c → (tables : List Rows) (i : ℕ) (p : Known) → slice_get c i ≡ Some p → is_sound c tables i ≡ true → source_sound c tables (left_source p.node) ≡ true }
    ensures right { (c : List Known) → IsCircuit c → (tables : List Rows) (i : ℕ) (p : Known) → slice_get c i ≡ Some p → is_sound c tables i ≡ true → source_sound c tables (right_source p.node) ≡ true }
    ensures kinds { (c : List Known) (tables : List Rows) (i : ℕ) (p : Known) → IsCircuit c → slice_get c i ≡ Some p → IsSoundAt c tables i → HasKinds p.kinds (whole c tables i) }
    ensures in_range { (c : List Known) (tables : List Rows) (i : ℕ) (p : Known) → IsCircuit c → slice_get c i ≡ Some p → IsSoundAt c tables i → IsInRange (whole c tables i) }
{}

/// The verdict is the least owner of a node with a fault, none if no node has one. It is the least owner of a node that is
/// not sound too, since such a node needs one with a fault whose owner is not above its own.
pub fn verdicts_are_least_owners()
    ensures found { (c : List Known) → IsCircuit c → (tables : List Rows) (v : ℕ) → verdict c tables ≡ Some v → IsToBlame c tables v }
    ensures least { (c : List Known) → IsCircuit c → (tables : List Rows) (i w : ℕ) → i < length c → has_fault c tables i ≡ true → owner_at c i ≡ Some w → IsAtMost (verdict c tables) w }
    ensures none { (c : List Known) → IsCircuit c → (tables : List Rows) → verdict c tables ≡ None → (i : ℕ) → i < length c → has_fault c tables i ≡ false }
    ensures clear { (c : List Known) → IsCircuit c → (tables : List Rows) → ((i : ℕ) → i < length c → has_fault c tables i ≡ false) → verdict c tables ≡ None }
    ensures unsound { (c : List Known) → IsCircuit c → (tables : List Rows) → verdict c tables ≡ least_below (unsound_owner c tables) (length c) }
{}

/// The verdict is the first view that a test tells of, if the test tells of each view whether it is to blame, given that none
/// before it is: so each view is looked at with all earlier ones in order.
pub fn verdicts_are_told_view_by_view<X>()
    ensures { (test : X → Bool) (xs : List X) (c : List Known) (tables : List Rows) → IsCircuit c → length xs ≡ view_count c → AreTold test xs c tables → verdict c tables ≡ position test xs }
{}

/// A part that is appended is worth its operator over what it reads, has a fault by that, and is sound if it has none and what it
/// reads is sound; the verdict is then the lesser of the old one and its owner, if it has a fault.
pub fn a_last_part_is_made_of_the_others()
    ensures value { (c : List Known) (p : Known) → AreEarlier c → ReadsThese c p → (tables : List Rows) → whole (c ++ p ∷ []) tables (length c) ≡ made_of c tables p }
    ensures fault { (c : List Known) (p : Known) → AreEarlier c → ReadsThese c p → (tables : List Rows) → has_fault (c ++ p ∷ []) tables (length c) ≡ is_faulty c tables p }
    ensures sound { (c : List Known) (p : Known) → AreEarlier c → ReadsThese c p → (tables : List Rows) → is_sound (c ++ p ∷ []) tables (length c) ≡ is_fine c tables p }
    ensures verdict { (c : List Known) (p : Known) → AreEarlier c → ReadsThese c p → (tables : List Rows) → verdict (c ++ p ∷ []) tables ≡ lesser (verdict c tables) (cond (is_faulty c tables p) p.owner None) }
    ensures earlier { (c : List Known) (p : Known) → AreEarlier c → ReadsThese c p → AreEarlier (c ++ p ∷ []) }
{}

/// Parts that nodes are appended to stay: their Z-sets, faults and soundness, over all tables that are good for the longer list.
pub fn longer_lists_keep_their_parts()
    ensures same { (c : List Known) → IsGrown c c }
    ensures next { (c d : List Known) (p : Known) → IsGrown c d → is_table p.node ≡ false → IsGrown c (d ++ p ∷ []) }
    ensures through { (c d e : List Known) → IsGrown c d → IsGrown d e → IsGrown c e }
    ensures length { (c d : List Known) → IsGrown c d → length c ≤ length d }
    ensures part { (c d : List Known) → IsGrown c d → (i : ℕ) → i < length c → slice_get d i ≡ slice_get c i }
    ensures value { (c d : List Known) → IsGrown c d → (tables : List Rows) (i : ℕ) → i < length c → whole d tables i ≡ whole c tables i }
    ensures fault { (c d : List Known) → IsGrown c d → AreEarlier c → (tables : List Rows) (i : ℕ) → i < length c → has_fault d tables i ≡ has_fault c tables i }
    ensures sound { (c d : List Known) → IsGrown c d → AreEarlier c → (tables : List Rows) (i : ℕ) → i < length c → is_sound d tables i ≡ is_sound c tables i }
    ensures good { (c d : List Known) → IsGrown c d → (tables : List Rows) → IsGood d tables → IsGood c tables }
    ensures list { (c d : List Known) → IsGrown c d → AreEarlier c → (i : ℕ) → i < length c → HasList c i → HasList d i }
{}

/// A circuit in the making begins with its tables, for any number of views. A node that may be appended leaves it one, and so
/// does going on to a later view.
pub fn circuits_are_made_node_by_node()
    ensures begun { (views now : ℕ) (c : List Known) → AreTables c → IsBegun views now c }
    ensures grown { (views now : ℕ) (c : List Known) (p : Known) → IsBegun views now c → IsNext views now c p → IsBegun views now (c ++ p ∷ []) }
    ensures later { (views now later : ℕ) (c : List Known) → IsBegun views now c → now ≤ later → IsBegun views later c }
    ensures earlier { (views now : ℕ) (c : List Known) → IsBegun views now c → AreEarlier c }
{}

/// In a circuit in the making the rows of a sound node over good tables are of its kinds, and those of a list if it has one.
pub fn circuits_in_the_making_are_bounded()
    ensures kinds { (views now : ℕ) (c : List Known) → IsBegun views now c → (tables : List Rows) (i : ℕ) (p : Known) → slice_get c i ≡ Some p → IsSoundAt c tables i → HasKinds p.kinds (whole c tables i) }
    ensures list { (views now : ℕ) (c : List Known) → IsBegun views now c → (tables : List Rows) (i : ℕ) (p : Known) → slice_get c i ≡ Some p → IsSoundAt c tables i → HasList c i → IsListed (whole c tables i) }
{}

/// In a circuit in the making an earlier verdict stays, and a fault of a new node is the view's that is being made.
pub fn verdicts_are_made_node_by_node()
    ensures kept { (n now : ℕ) (c : List Known) (p : Known) → IsBegun n now c → IsNext n now c p → (tables : List Rows) (w : ℕ) → verdict c tables ≡ Some w → verdict (c ++ p ∷ []) tables ≡ Some w }
    ensures first { (n now : ℕ) (c : List Known) (p : Known) → IsBegun n now c → IsNext n now c p → (tables : List Rows) → verdict c tables ≡ None → verdict (c ++ p ∷ []) tables ≡ cond (is_faulty c tables p) (Some now) None }
{}

/// With its views behind it, a circuit in the making is one. A view is worth the node that it reads, and no view adds a fault.
pub fn views_end_a_circuit()
    ensures circuit { (views now : ℕ) (c vs : List Known) → IsEnded views now c vs → length c + views < 2 ^ 32 → IsCircuit (c ++ vs) }
    ensures good { (views now : ℕ) (c vs : List Known) → IsEnded views now c vs → (tables : List Rows) → IsGood (c ++ vs) tables → IsGood c tables }
    ensures value { (n now : ℕ) (c vs : List Known) (h : IsEnded n now c vs) (tables : List Rows) (v : ℕ) (p : Known) (e : slice_get vs v ≡ Some p) → whole (c ++ vs) tables (length c + v) ≡ whole c tables (h.each v p e).input }
    ensures verdict { (views now : ℕ) (c vs : List Known) → IsEnded views now c vs → (tables : List Rows) → verdict (c ++ vs) tables ≡ verdict c tables }
{}

/// Parts that stand where they may and give their kinds are a circuit, if the sound nodes that others read as lists are lists:
/// what is left to show of a difference, of a join that is no place, and of a sum that is none (`IsListedPart`).
pub fn listed_parts_are_a_circuit()
    ensures { (c : List Known) → length c < 2 ^ 32 → ((i : ℕ) (p : Known) → slice_get c i ≡ Some p → IsPart c i p) → ((i : ℕ) (p : Known) → slice_get c i ≡ Some p → IsListedPart c i p) → IsCircuit c }
{}

/// A table of any kinds and a view of it are a circuit.
pub fn a_view_of_a_table_is_a_circuit()
    ensures { (kinds : List ColumnKind) → IsCircuit (table_and_view kinds) }
{}

fn is_send_and_sync<T: Send + Sync>() {}

// A linear operator may be handed to another thread, and be shared.
fn operators_cross_threads() {
    is_send_and_sync::<LinearOp>();
}

// So may a node.
fn nodes_cross_threads() {
    is_send_and_sync::<Node>();
}

// So may a part.
fn parts_cross_threads() {
    is_send_and_sync::<Part>();
}

// So may a circuit.
fn circuits_cross_threads() {
    is_send_and_sync::<Circuit>();
}

// So may changes.
fn changes_cross_threads() {
    is_send_and_sync::<Changes>();
}
