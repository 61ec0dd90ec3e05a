//! What holds of queries over lists of rows and of updates, each as the contract of a function that does nothing.
ghost use Rattle.std.specs.Prelude.{◌≡◌, ◌≤◌, ◌<◌, ◌+◌, ◌==◌, ◌↔◌, ℕ, Bool, true, if◌then◌else◌, List, [], ◌∷◌, ◌++◌, Option, Some, length, map};
ghost use Rattle.std.specs.List.{AllByRecursion, filter};
ghost use Rattle.std.specs.declared.result.Result.TheVariants.{Err as Refused};
ghost use Rattle.sq_value.specs.Count.{count};
ghost use Rattle.sq_ast.specs.declared.query.SetOp.{SetOp as Operation};
ghost use Rattle.sq_ast.specs.declared.query.SetOp.TheVariants.{UnionAll, Union, Except};
ghost use Rattle.sq_ast.specs.declared.statement.Statement.{Statement as StatementTree};
ghost use Rattle.sq_ast.specs.Sources.{program_sources};
ghost use Rattle.sq_expr.specs.declared.cond.Cond.{Cond as Condition};
ghost use Rattle.sq_expr.specs.declared.expr.Expr.{Expr as Expression};
ghost use Rattle.sq_expr.specs.declared.expr.Kind.{Kind as ColumnKind};
ghost use Rattle.sq_expr.specs.Columns.{members};
ghost use Rattle.sq_expr.specs.Meaning.{truth};
ghost use Rattle.sq_typed.specs.declared.query.Block.{Block as Selected, out-Block};
ghost use Rattle.sq_typed.specs.declared.query.Query.TheVariants as query;
ghost use Rattle.sq_typed.specs.declared.query.Grouping.{Grouping as Groups};
ghost use Rattle.sq_typed.specs.declared.query.Query.{Query as Selection};
ghost use Rattle.sq_typed.specs.declared.update.Update.{Update as Change};
ghost use Rattle.sq_typed.specs.From.{Row, Answer, Source, from, inner, kept, outer};
ghost use Rattle.sq_value.specs.Truth.{is_true};
ghost use Rattle.sq_typed.specs.Blocks.{block_answer, item_rows, without_repeats};
ghost use Rattle.sq_typed.specs.Queries.{Contents, answer, intersect_answer, intersect_rows, set_rows, source_of_item};
ghost use Rattle.sq_typed.specs.Relations.{relations_of};
ghost use Rattle.sq_typed.specs.Programs.{Typed};
ghost use Rattle.sq_typed.specs.Sources.{sources_in};
ghost use Rattle.sq_typed.specs.Tables.{Tables, after};
ghost use Rattle.sq_typed.specs.Views.{Meant, views};
ghost use Rattle.sq_typed.specs.Laws.{AgreeAt, AreOfWidth, BringKinds, FirstAbsent, HasColumns, HasItsWidth, HaveTheirWidths, HoldKinds, HoldTheirWidths, LeadTo, NamesThese, QueriesFit, TablesFit};
ghost use Rattle.sq_typed.specs.Laws.{deletes, held, inserts, kept_early, set_chain, width_of_all};

use crate::{
    Block, BlockCall, CheckKind, FromItem, FromJoin, Grouping, Origin, Program, Query, SetStep,
    Update,
};
use sqlite_items::Items;

/// The rows that WHERE keeps, those on which its condition is True, are the rows that go on from the last source, where
/// each member is applied as soon as all sources whose columns it names are joined.
#[tactic(auto, using(crate::proofs::WhereLemmas::where_keeps_the_last, crate::proofs::WhereLemmas::condition_keeps_the_last, crate::proofs::WhereLemmas::kept_by_condition))]
pub fn conditions_apply_early()
    ensures members { (conds : List Condition) (s : Source) (ss : List Source) → HaveTheirWidths (s ∷ ss) →
        AllByRecursion (NamesThese (s ∷ ss)) conds → kept conds (s ∷ ss) ≡ kept_early conds (s ∷ ss) }
    ensures condition { (c : Condition) (s : Source) (ss : List Source) → HaveTheirWidths (s ∷ ss) → NamesThese (s ∷ ss) c →
        filter (λ row. is_true (truth c row)) (from (s ∷ ss)) ≡ kept_early (members c) (s ∷ ss) }
    ensures kept { (c : Condition) (sources : List Source) → kept (members c) sources ≡ filter (λ row. is_true (truth c row)) (from sources) }
{}

/// Joined rows are as wide as their sources together, group rows have the group columns and a value of each call, and
/// each row of a block has a value of each item.
#[tactic(auto, using(crate::proofs::WhereLemmas::from_width, crate::proofs::WhereLemmas::kept_width, crate::proofs::AnswerLemmas::grouped_width, crate::proofs::AnswerLemmas::block_width))]
pub fn rows_of_blocks_have_their_width()
    ensures joined { (sources : List Source) → HaveTheirWidths sources → AreOfWidth (width_of_all sources) (from sources) }
    ensures kept { (conds : List Condition) (sources : List Source) → HaveTheirWidths sources → AreOfWidth (width_of_all sources) (kept conds sources) }
    ensures grouped { (g : Groups) (rows : List Row) → AreOfWidth (length g.columns + length g.calls) (item_rows (Some g) rows) }
    ensures block { (distinct : Bool) (sources : List Source) (where_ : Option Condition) (grouping : Option Groups) (items : List Expression) → HasItsWidth (block_answer distinct sources where_ grouping items) }
{}

/// A chain of set operations over rows of one width gives rows of this width.
#[tactic(auto, using(crate::proofs::AnswerLemmas::chain_width, crate::proofs::AnswerLemmas::intersect_width))]
pub fn rows_of_chains_have_their_width()
    ensures chain { (first : Answer) (rest : List (Operation × Answer)) → HasItsWidth first → AllByRecursion (λ s. AreOfWidth first.width s.1.rows) rest →
        HasItsWidth (set_chain first rest) }
    ensures intersection { (first : Answer) (rest : List Answer) → HasItsWidth first → HasItsWidth (intersect_answer (first ∷ rest)) }
{}

/// Over relations whose rows have their width, a query whose set operations join equal numbers of columns gives rows with a
/// value of each of its columns, and so does each source of a block.
#[tactic(auto, using(crate::proofs::ColumnLemmas::query_is_wide, crate::proofs::ColumnLemmas::sources_have_widths))]
pub fn rows_of_queries_have_their_width()
    ensures query { (relations : List Contents) → HoldTheirWidths relations → (q : Selection) (w : ℕ) →
        HasColumns relations q w → ((answer relations q).width ≡ w) × AreOfWidth w (answer relations q).rows }
    ensures sources { (relations : List Contents) → HoldTheirWidths relations → (b : Selected) (w : ℕ) →
        HasColumns relations (query.Block b) w → HaveTheirWidths (map (source_of_item relations) (out-Block b).sources) }
{}

/// If each view's query gives as many columns as the view has, and the rows of the tables have as many values as these
/// have columns, the rows of all views have their width.
#[tactic(auto, using(crate::proofs::ProgramLemmas::views_have_widths))]
pub fn rows_of_views_have_their_width()
    ensures { (p : Meant) (tables : Tables) → QueriesFit [] p.queries p.catalog → TablesFit tables p.catalog → AllByRecursion HasItsWidth (views p tables) }
{}

/// The pairs of a left join on which its condition is True are no more than its rows.
#[tactic(auto, using(crate::proofs::ColumnLemmas::pairs_are_part))]
pub fn left_joins_have_their_pairs()
    ensures { (width : ℕ) (conds : List Condition) (others rows : List Row) → length (inner conds others rows) ≤ length (outer width conds others rows) }
{}

/// What a query gives depends on the relations that it names, and on no others.
#[tactic(auto, using(crate::proofs::RelationLemmas::relations_decide))]
pub fn named_relations_decide()
    ensures { (before now : List Contents) (q : Selection) →
        AllByRecursion (AgreeAt before now) (relations_of q) → answer before q ≡ answer now q }
{}

/// How often set operations and DISTINCT give a row.
pub fn rows_are_counted()
    ensures union_all { (r : Row) (rows more : List Row) → count r (set_rows UnionAll rows more) ≡ count r rows + count r more }
    ensures union { (r : Row) (rows more : List Row) → count r (set_rows Union rows more) ≡ (if count r rows + count r more == 0 then 0 else 1) }
    ensures except { (r : Row) (rows more : List Row) → count r (set_rows Except rows more) ≡ (if count r more == 0 then (if count r rows == 0 then 0 else 1) else 0) }
    ensures intersect { (r : Row) (rows more : List Row) → count r (intersect_rows rows more) ≡ (if count r more == 0 then 0 else if count r rows == 0 then 0 else 1) }
    ensures distinct { (r : Row) (rows : List Row) → count r (without_repeats true rows) ≡ (if count r rows == 0 then 0 else 1) }
{}

/// A program has as many sources behind `FROM`, at every depth, as the statements that mean it.
#[tactic(auto, using(crate::proofs::SourceLemmas::as_many_sources))]
pub fn sources_are_kept()
    ensures { (statements : List StatementTree) (program : Meant) → Typed statements program → sources_in program ≡ program_sources statements }
{}

/// After some updates a table holds a row as often as before, and once more for each insert and once less for each delete
/// of it.
pub fn updates_are_counted()
    ensures { (tables : Tables) (updates : List Change) (now : Tables) → LeadTo tables updates now → (table : ℕ) (row : Row) →
        held now table row + deletes table row updates ≡ held tables table row + inserts table row updates }
{}

/// Updates go in order: further ones go on from the tables that earlier ones left, and none is made after one that fails.
/// If all their tables are there, they fail exactly at the first that deletes a row which its table does not hold then.
#[tactic(auto, using(crate::proofs::UpdateLemmas::after_append, crate::proofs::UpdateLemmas::after_fails, crate::proofs::UpdateLemmas::first_absent_is))]
pub fn updates_go_in_order()
    ensures more { (tables : Tables) (updates more : List Change) (now : Tables) → LeadTo tables updates now → after tables (updates ++ more) ≡ after now more }
    ensures stops { (tables : Tables) (updates more : List Change) (line : ℕ) → after tables updates ≡ Refused line → after tables (updates ++ more) ≡ Refused line }
    ensures absent { (tables : Tables) (updates : List Change) (line : ℕ) → AllByRecursion (λ u. u.table < length tables) updates → (after tables updates ≡ Refused line) ↔ FirstAbsent tables updates line }
{}

/// Updates keep the number of tables, and the kinds of their rows, if the rows that they speak of have them too.
#[tactic(auto, using(crate::proofs::UpdateLemmas::as_many_after, crate::proofs::UpdateLemmas::kinds_after))]
pub fn updates_keep_tables()
    ensures number { (tables : Tables) (updates : List Change) (now : Tables) → LeadTo tables updates now → length now ≡ length tables }
    ensures rows { (kinds : ℕ → List ColumnKind) (tables : Tables) (updates : List Change) (now : Tables) → LeadTo tables updates now →
        HoldKinds kinds tables → BringKinds kinds updates → HoldKinds kinds now }
{}

fn is_send_and_sync<T: Send + Sync>() {}

// Each type of data may be handed to another thread, and be shared.
fn data_crosses_threads() {
    is_send_and_sync::<Query>();
    is_send_and_sync::<SetStep>();
    is_send_and_sync::<Block>();
    is_send_and_sync::<FromJoin>();
    is_send_and_sync::<Origin>();
    is_send_and_sync::<Grouping>();
    is_send_and_sync::<BlockCall>();
    is_send_and_sync::<Update>();
    is_send_and_sync::<CheckKind>();
}

// So may the sources of a block, with their joins.
fn sources_cross_threads() {
    is_send_and_sync::<Items<FromItem>>();
}

// And so may a program.
fn programs_cross_threads() {
    is_send_and_sync::<Program>();
}
