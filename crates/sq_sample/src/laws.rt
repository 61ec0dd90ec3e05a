//! What holds of the sample, each as the contract of a function that does nothing.
ghost use Rattle.std.specs.Prelude.{◌≡◌, ◌≤◌, ◌+◌, ℕ, List, None, Some, length, map, pos, slice_get, ◌^◌};
ghost use Rattle.std.specs.declared.result.Result.TheVariants.{Ok as Made, Err as Lacking};
ghost use Rattle.std.specs.List.{AllByRecursion};
ghost use Rattle.sq_algebra.specs.ZSet.{total};
ghost use Rattle.sq_circuit.specs.Circuits.{verdict, whole};
ghost use Rattle.sq_circuit.specs.Nodes.{Rows};
ghost use Rattle.sq_circuit.specs.declared.circuit.Part.{Part};
ghost use Rattle.sq_compile.specs.Programs.{IsProgramOf, TextFault, TextStops};
ghost use Rattle.sq_compile.specs.declared.texts.CompileFault.{CompileFault};
ghost use Rattle.sq_compile.specs.declared.texts.CompileFault.TheVariants.{Memory};
ghost use Rattle.sq_engine.specs.Admitting.{MayAdmit, in_z_sets, made};
ghost use Rattle.sq_engine.specs.Engines.{State, begun, fresh, moved, no_tables, view_node, views_over, with_changes};
ghost use Rattle.sq_meant.specs.Program.{program};
ghost use Rattle.sq_meant.specs.Text.{program_text};
ghost use Rattle.sq_plan.specs.Program.{IsPlanOf};
ghost use Rattle.sq_print.specs.declared.program_fault.ProgramFault.{ProgramFault};
ghost use Rattle.sq_sample.specs.Accepted.{IsBehind, rises};
ghost use Rattle.sq_sample.specs.Printed.{before_any_tick, counts, raised, rows_listed, sample_text};
ghost use Rattle.sq_sample.specs.Ticks.{tables_after, tick};
ghost use Rattle.sq_typed.specs.Tables.{after};
ghost use Rattle.sq_typed.specs.Views.{Meant, verdict as program_verdict};

/// Each tick finds the rows that it deletes, and makes the tables after it of those before it.
#[tactic(auto, using(crate::proofs::Making::ticks_make))]
pub fn ticks_make_their_tables()
    ensures { (seed t : ℕ) → after (tables_after seed t) (tick seed (t + 1)) ≡ Made (tables_after seed (t + 1)) }
{}

/// An engine that is behind some ticks of the sample may be asked to admit the next one, and finds each row that it deletes: with its
/// changes the engine is behind that tick too.
#[tactic(auto, using(crate::proofs::Accepting::ticks_may_be_admitted, crate::proofs::Accepting::no_row_is_absent, crate::proofs::Accepting::ticks_move_on))]
pub fn engines_admit_the_ticks()
    ensures may { (s : State) (seed t : ℕ) → t ≤ 1000000 → IsBehind s seed t → MayAdmit s (tick seed (t + 1)) }
    ensures there { (s : State) (seed t line : ℕ) → t ≤ 1000000 → IsBehind s seed t → made s.tables (tick seed (t + 1)) ≡ Lacking line → ⊥ }
    ensures goes_on { (s : State) (seed t : ℕ) (delta : List Rows) → t ≤ 1000000 → IsBehind s seed t → made s.tables (tick seed (t + 1)) ≡ Made (with_changes s.tables delta) → IsBehind (moved s delta) seed (t + 1) }
{}

/// The text of the program compiles: it is the text of the program, and of no other, and it has no fault. So only want of memory can
/// stop its compilation.
pub fn the_program_compiles()
    ensures program { IsProgramOf program_text program }
    ensures one { (q : Meant) → IsProgramOf program_text q → q ≡ program }
    ensures no_fault { (fault : ProgramFault) → TextFault program_text fault → ⊥ }
    ensures only_memory { (stop : CompileFault) → TextStops program_text stop → stop ≡ Memory }
{}

/// No view of the program is out of range over the tables after any of the ticks.
#[tactic(auto, using(crate::proofs::Ranges::tables_in_range))]
pub fn no_view_is_out_of_range()
    ensures { (seed t : ℕ) → t ≤ 1000001 → program_verdict program (tables_after seed t) ≡ None }
{}

/// An engine over a plan of the program is not refused its start, and is then behind no ticks of the sample. Nor is it refused a change
/// with which it is behind one more tick.
pub fn no_tick_is_out_of_range()
    ensures start { (c : List Part) → IsPlanOf program c → verdict c (no_tables c) ≡ None }
    ensures behind { (c : List Part) (shards seed : ℕ) → IsPlanOf program c → IsBehind (begun (fresh c shards)) seed 0 }
    ensures tick { (s : State) (seed t : ℕ) (delta : List Rows) → t ≤ 1000001 → IsPlanOf program s.circuit → IsBehind (moved s delta) seed t → verdict s.circuit (with_changes s.tables delta) ≡ None }
{}

/// In a plan of the program each view node has as many rows, counted with their weights, as the view lists over the tables after the ticks:
/// five numbers, each at most 2^28.
#[tactic(auto, using(crate::proofs::Ranges::rows_counted, crate::proofs::Printing::five_views, crate::proofs::Printing::few_rows))]
pub fn view_nodes_count_the_rows()
    ensures many { (seed t : ℕ) → length (rows_listed seed t) ≡ 5 }
    ensures few { (seed t : ℕ) → t ≤ 1000001 → AllByRecursion (λ n. n ≤ 2 ^ 28) (rows_listed seed t) }
    ensures rows { (c : List Part) (seed t v n : ℕ) → t ≤ 1000001 → IsPlanOf program c → slice_get (rows_listed seed t) v ≡ Some n → total (whole c (in_z_sets (tables_after seed t)) (view_node c v)) ≡ pos n }
{}

/// The totals of the changes that an engine over a plan of the program gives, at its start and at each tick, add up to how many rows each view lists.
pub fn changes_count_the_rows()
    ensures start { (c : List Part) (seed : ℕ) → IsPlanOf program c → map total (views_over c (no_tables c)) ≡ counts seed 0 }
    ensures tick { (s : State) (seed t : ℕ) (d : List Rows) → t ≤ 1000000 → IsPlanOf program s.circuit → IsBehind s seed t → IsBehind (moved s d) seed (t + 1) → raised (counts seed t) (rises s d) ≡ counts seed (t + 1) }
{}

/// What the run prints, on an example: no ticks, over tables without rows.
#[tactic(auto, using(crate::proofs::Printing::printed_before))]
pub fn what_is_printed_before_any_tick()
    ensures { sample_text 7 0 ≡ before_any_tick }
{}
