//! What holds of the program, each as the contract of a function that does nothing.
ghost use Rattle.std.specs.Prelude.{◌≡◌, ◌≤◌, ◌^◌, List, [], ◌∷◌, length, None};
ghost use Rattle.std.specs.List.{AllByRecursion};
ghost use Rattle.sq_meant.specs.Program.{program};
ghost use Rattle.sq_meant.specs.Small.{AreSmall};
ghost use Rattle.sq_meant.specs.Text.{IsTextOf, program_text};
ghost use Rattle.sq_typed.specs.From.{Row};
ghost use Rattle.sq_typed.specs.Views.{shown, verdict};

/// The text is short, and means the program: it is in UTF-8, and its tokens spell statements without a fault.
pub fn the_text_means_the_program()
    ensures short { length program_text ≤ 1000 }
    ensures meant { IsTextOf program_text program }
{}

/// Over tables with at most 1,010 rows of d and at most 100,001 rows of e, with numbers from 0 up to 2^31, no view of the program is out
/// of range: a place lists at most 1011 * 100002 rows, and a number is at most 2^58. A view lists at most 2^28 rows.
pub fn no_view_is_out_of_range()
    ensures in_range { (d e : List Row) → AreSmall d e → verdict program (d ∷ e ∷ []) ≡ None }
    ensures few { (d e : List Row) → AreSmall d e → AllByRecursion (λ rows. length rows ≤ 2 ^ 28) (shown program (d ∷ e ∷ [])) }
{}
