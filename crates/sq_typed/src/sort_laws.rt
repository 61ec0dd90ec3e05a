//! The sorts of rows: numbers and texts as their columns say, without a word on range. Each law is the contract of a function that
//! does nothing.
ghost use Rattle.std.specs.Prelude.{◌≡◌, List, length};
ghost use Rattle.sq_value.specs.declared.value.Value.{Value as Datum};
ghost use Rattle.sq_expr.specs.declared.expr.Expr.{Expr as Expression};
ghost use Rattle.sq_expr.specs.declared.expr.Kind.{Kind as ColumnKind};
ghost use Rattle.sq_expr.specs.Kinds.{AreOfKinds};
ghost use Rattle.sq_expr.specs.Meaning.{num};
ghost use Rattle.sq_expr.specs.Typing.{IsOfSort, sort_of_kind};
ghost use Rattle.sq_typed.specs.Fit.{Fits, Pairwise};
ghost use Rattle.sq_typed.specs.Numbered.{kind_of};
ghost use Rattle.sq_typed.specs.Queries.{Contents};
ghost use Rattle.sq_typed.specs.declared.query.Block.{Block as Selected};
ghost use Rattle.sq_typed.specs.declared.query.Query.TheVariants as query;
ghost use Rattle.sq_typed.specs.declared.query.Query.{Query as Selection};
ghost use Rattle.sq_typed.specs.Sorts.{AreOfSorts, GivesItsSorts, HoldsSorts, SourcesHaveWidths};

/// A row of some kinds is of their sorts. One of some sorts has as many values, and there an expression has a value of its sort.
#[tactic(auto, using(crate::proofs::Sorting::kinds_have_sorts, crate::proofs::Sorting::length_of_sorts, crate::proofs::Sorting::value_sort))]
pub fn rows_are_of_sorts()
    ensures kinds { (row : List Datum) (kinds : List ColumnKind) → AreOfKinds row kinds → AreOfSorts row kinds }
    ensures length { (row : List Datum) (kinds : List ColumnKind) → AreOfSorts row kinds → length row ≡ length kinds }
    ensures value { (kinds : List ColumnKind) (row : List Datum) → AreOfSorts row kinds → (e : Expression) → IsOfSort (sort_of_kind (kind_of kinds e)) (num e row) }
{}

/// Over relations whose rows are of their columns' sorts, the rows of a query that fits are of the sorts of its columns.
pub fn rows_of_queries_are_of_sorts()
    ensures { (relations : List Contents) (kinds : List (List ColumnKind)) → Pairwise HoldsSorts relations kinds → (q : Selection) → Fits kinds q → GivesItsSorts relations kinds q }
{}

/// Over such relations the rows of each source of a block that fits have the source's width, and the widths add up to the number of
/// the columns of all sources.
pub fn sources_of_blocks_have_widths()
    ensures { (relations : List Contents) (kinds : List (List ColumnKind)) → Pairwise HoldsSorts relations kinds → (b : Selected) → Fits kinds (query.Block b)
        → SourcesHaveWidths relations kinds b }
{}
