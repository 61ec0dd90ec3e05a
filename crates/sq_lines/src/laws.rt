//! What holds of what lines say, each as the contract of a function that does nothing.
ghost use Rattle.std.specs.Prelude.{◌≡◌, ◌+◌, ◌++◌, ℕ, List, [], map, false};
ghost use Rattle.std.specs.List.{concat, enumerate_from};
ghost use Rattle.serde_json.specs.Data.{Data};
ghost use Rattle.serde_json.specs.Find.{get};
ghost use Rattle.sq_catalog.specs.declared.relation.Column.{Column as CatalogColumn};
ghost use Rattle.sq_catalog.specs.declared.relation.Relation.{Relation as CatalogRelation};
ghost use Rattle.sq_typed.specs.declared.update.Update.{Update as TableUpdate};
ghost use Rattle.sq_lines.specs.declared.line.Line.TheVariants as line;
ghost use Rattle.sq_lines.specs.declared.line.Why.{Why as Cause};
ghost use Rattle.sq_lines.specs.Cutting.{answer, answers, cut_after, ended, fed, kept, last_line, lines_of, raw_lines, uncut};
ghost use Rattle.sq_expr.specs.Meaning as meaning;
ghost use Rattle.sq_lines.specs.Cells.{cell, has_wrong_type, is_null, is_out_of_range};
ghost use Rattle.sq_lines.specs.Fit.{UpdateFits};
ghost use Rattle.sq_lines.specs.Lines.{decoded, is_commit, says_commit};

/// The update that a line says has the line's number, is of a table that is there, and its row is of the kinds of that
/// table's columns.
pub fn updates_fit()
    ensures { (relations : List CatalogRelation) (n : ℕ) (bytes : List ℕ) (u : TableUpdate) → decoded relations n bytes ≡ line.Update u → UpdateFits relations n u }
{}

/// A bad line tells its own number.
#[tactic(auto, using(crate::proofs::FitLemmas::bad_number))]
pub fn lines_number()
    ensures { (relations : List CatalogRelation) (n m : ℕ) (bytes : List ℕ) (why : Cause) → decoded relations n bytes ≡ line.Bad m why → m ≡ n }
{}

/// No value is lost: if no rule on a column refuses the row, its cell is NULL exactly when the column's member is missing or `null`.
pub fn values_are_kept()
    ensures { (row : Data) (c : CatalogColumn) → has_wrong_type row c ≡ false → is_out_of_range row c ≡ false → meaning.is_null (cell row c) ≡ is_null (get c.name row) }
{}

/// Whatever pieces bytes come in, what a new cutter answers to them one after the other, with the line that is left at the end, is the lines
/// of all bytes, numbered from 1.
#[tactic(auto, using(crate::proofs::PieceLemmas::any_pieces))]
pub fn pieces_are_cut_into_lines()
    ensures { (pieces : List (List ℕ)) → answers uncut pieces ≡ raw_lines 0 (lines_of (concat pieces)) }
{}

/// Behind some bytes a cutter stands where it stands behind them, and a further piece brings the lines that it adds to theirs.
#[tactic(auto, using(crate::proofs::PieceLemmas::fed_after, crate::proofs::PieceLemmas::raw_after, crate::proofs::PieceLemmas::raw_last))]
pub fn cutting_goes_on()
    ensures fed { (bytes piece : List ℕ) → fed (cut_after bytes) piece ≡ cut_after (bytes ++ piece) }
    ensures lines { (bytes piece : List ℕ) → raw_lines 0 (ended [] (bytes ++ piece)) ≡ raw_lines 0 (ended [] bytes) ++ answer (cut_after bytes) piece }
    ensures last { (bytes : List ℕ) → raw_lines 0 (lines_of bytes) ≡ raw_lines 0 (ended [] bytes) ++ last_line (cut_after bytes) }
{}

/// What is kept of a line says the same as the line, and no table has a say in whether it is a commit line.
#[tactic(auto, using(crate::proofs::Saying::kept_says, crate::proofs::Saying::raw_lines_say, crate::proofs::Saying::commits_are_commits))]
pub fn kept_lines_say_the_same()
    ensures kept { (relations : List CatalogRelation) (n : ℕ) (line : List ℕ) → decoded relations n (kept line) ≡ decoded relations n line }
    ensures raw { (relations : List CatalogRelation) (n : ℕ) (lines : List (List ℕ))
        → map (λ r. decoded relations r.number r.bytes) (raw_lines n lines) ≡ map (λ l. decoded relations l.0 l.1) (enumerate_from (n + 1) lines) }
    ensures commit { (relations : List CatalogRelation) (n : ℕ) (line : List ℕ) → is_commit (decoded relations n line) ≡ says_commit line }
{}
