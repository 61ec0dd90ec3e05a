//! What holds of the definitions, each as the contract of a function that does nothing.
ghost use Rattle.std.specs.Prelude.{◌≡◌, ◌++◌, ℕ, List, [], pos, false, if◌then◌else◌};
ghost use Rattle.std.specs.List.{enumerate_from, flat_map};
ghost use Rattle.sq_typed.specs.Views.{shown};
ghost use Rattle.sq_typed.specs.From.{Row};
ghost use Rattle.sq_typed.specs.Laws.{rows_in};
ghost use Rattle.sq_typed.specs.Views.{Meant};
ghost use Rattle.sq_lines.specs.declared.line.Line.{Line as Said};
ghost use Rattle.sq_ticks.specs.Programs.{IsProgram, HasFault};
ghost use Rattle.sq_catalog.specs.Sorts.{is_printed, views_of};
ghost use Rattle.sq_catalog.specs.declared.relation.Relation.{Relation};
ghost use Rattle.sq_ticks.specs.Sums.{first_reports, printed_sum, times_held};
ghost use Rattle.sq_print.specs.Texts.{accepted_text, rise_text};
ghost use Rattle.sq_ticks.specs.Texts.{changes, tick_text, view_text, views_text};
ghost use Rattle.sq_ticks.specs.Ticks.{accepted, outcome};
ghost use Rattle.sq_ticks.specs.Updates.{updates_of, has_bad, outcome_after};
ghost use Rattle.sq_print.specs.declared.program_fault.ProgramFault.{ProgramFault as Fault};
ghost use Rattle.sq_typed.specs.Tables.{Tables, after};

/// After block 0 and any number of ticks, the numbers told so far for a row of a view, deletes with a minus, add up to how often
/// the view holds the row over the tables now. `changes_are_printed` says that these numbers are those of the printed lines.
#[tactic(auto, using(crate::proofs::SumLemmas::changes_add_up))]
pub fn changes_add_up()
    ensures { (p : Meant) (lines : List (List ℕ)) (ticks view : ℕ) (row : Row)
        → printed_sum p view row (first_reports p lines ticks) ≡ pos (times_held p view row (first_reports p lines ticks)) }
{}

/// The text of an accepted tick is that of its views in order and then the line of the tick. That of a view which is printed has a line for
/// each of its changes, in row order, and that of another view has none.
pub fn changes_are_printed()
    ensures tick { (p : Meant) (tick : ℕ) (before : List (List Row)) (now : Tables)
        → tick_text p tick before (accepted now) ≡ views_text p.catalog before (shown p now) ++ accepted_text tick }
    ensures views { (relations : List Relation) (before now : List (List Row)) → views_text relations before now
        ≡ flat_map (λ v. view_text v.1 (rows_in before v.0) (rows_in now v.0)) (enumerate_from 0 (views_of relations)) }
    ensures view { (view : Relation) (before now : List Row) → view_text view before now
        ≡ (if is_printed view.kind then flat_map (λ change. rise_text view change.0 change.1) (changes before now) else []) }
{}

/// An input has at most one program and at most one fault, and never both.
pub fn one_program()
    ensures one_fault { (input : List ℕ) (a b : Fault) → HasFault input a → HasFault input b → a ≡ b }
    ensures one { (input : List ℕ) (p q : Meant) → IsProgram input p → IsProgram input q → p ≡ q }
    ensures not_both { (input : List ℕ) (p : Meant) (fault : Fault) → IsProgram input p → HasFault input fault → ⊥ }
{}

/// Over lines none of which is bad, a tick makes the updates of its lines in order.
#[tactic(auto, using(crate::proofs::UpdateLemmas::lines_are_updates))]
pub fn ticks_make_updates()
    ensures { (p : Meant) (tables : Tables) (lines : List Said) → has_bad lines ≡ false → outcome p tables lines ≡ outcome_after p (after tables (updates_of lines)) }
{}
