//! What holds of tables in states, each as the contract of a function that does nothing.
ghost use Rattle.std.specs.Prelude.{◌≡◌, ◌<◌, ◌≤◌, ℕ, ℤ, List, false, length, replicate};
ghost use Rattle.sq_circuit.specs.Along.{each_below};
ghost use Rattle.sq_circuit.specs.Circuits.{table_at};
ghost use Rattle.sq_circuit.specs.Invariant.{IsCircuit, table_count};
ghost use Rattle.sq_circuit.specs.Nodes.{Rows, none};
ghost use Rattle.sq_circuit.specs.declared.circuit.Part.{Part as Known};
ghost use Rattle.sq_incr.specs.Ready.{Keeps};
ghost use Rattle.sq_states.specs.Empty.{empty_states};
ghost use Rattle.sq_states.specs.declared.kept.NodeState.{NodeState as Kept};
ghost use Rattle.sq_tables.specs.Tables.{HaveTables, HoldTables, table_in, tables_in};

/// States that keep what belongs to some tables hold these, and no others: the tables of the states are those. Before anything
/// was there they have no rows.
pub fn states_hold_the_tables()
    ensures tables { (c : List Known) → IsCircuit c → HaveTables c }
    ensures held { (c : List Known) (tables : List Rows) (states : List (List Kept)) (totals : List ℤ) → IsCircuit c → 0 < length states → length states ≤ 64 → Keeps false c tables states totals → HoldTables c tables states }
    ensures only { (c : List Known) (tables : List Rows) (states : List (List Kept)) → length tables ≡ table_count c → HoldTables c tables states → tables_in c states ≡ tables }
    ensures begun { (c : List Known) (n : ℕ) → tables_in c (replicate n (empty_states c)) ≡ each_below (λ t. none) (table_count c) }
    ensures each { (c : List Known) (states : List (List Kept)) (t : ℕ) → t < table_count c → table_at (tables_in c states) t ≡ table_in states t }
{}
