//! What holds of expressions and conditions, each as the contract of a function that does nothing.
ghost use Rattle.std.specs.Prelude.{◌≡◌, ◌↔◌, ◌≤◌, ◌<◌, ◌+◌, ℕ, ℤ, List, ◌++◌, Some, length, replicate, slice_get, true, unsigned_abs};
ghost use Rattle.std.specs.List.{AllByRecursion, flat_map};
ghost use Rattle.sq_value.specs.declared.tri.Tri.TheVariants.{True};
ghost use Rattle.sq_value.specs.declared.value.Value.{Value as Datum};
ghost use Rattle.sq_value.specs.declared.value.Value.TheVariants.{Null, Int};
ghost use Rattle.sq_expr.specs.declared.cond.Cond.{Cond as Condition};
ghost use Rattle.sq_expr.specs.declared.cond.Cond.TheVariants as cond;
ghost use Rattle.sq_expr.specs.declared.expr.Expr.{Expr as Expression};
ghost use Rattle.sq_expr.specs.declared.expr.Expr.TheVariants as expr;
ghost use Rattle.sq_expr.specs.declared.expr.Kind.{Kind as ColumnKind};
ghost use Rattle.sq_expr.specs.declared.expr.Kind.TheVariants as kind;
ghost use Rattle.sq_expr.specs.Bounds.{bound_of};
ghost use Rattle.sq_expr.specs.Columns.{columns, cond_columns, members, width_of};
ghost use Rattle.sq_expr.specs.Fits.{Suits, SuitsCond};
ghost use Rattle.sq_expr.specs.Items.{IsStorable};
ghost use Rattle.sq_expr.specs.Kinds.{AreOfKinds, IsOfKind};
ghost use Rattle.sq_expr.specs.Meaning.{column_of, num, truth};
ghost use Rattle.sq_expr.specs.Same.{is_same_expr};
ghost use Rattle.sq_expr.specs.Shifted.{shifted, shifted_cond};
ghost use Rattle.sq_expr.specs.Typing.{IsOfSort, IsTyped, IsTypedCond, Numeric, Sort as ExprSort, Textual, sort_of};

use crate::{Cmp, Cond, Expr, Func, ItemFault, Kind, Num, OutOfRange, Sort, Term};

/// Expressions and conditions depend on the columns that they name, and on no others.
#[tactic(auto, using(crate::proofs::Names::num_by_names, crate::proofs::Names::truth_by_names))]
pub fn names_decide()
    ensures value { (r s : List Datum) (e : Expression) → AllByRecursion (λ n. column_of r n ≡ column_of s n) (columns e) → num e r ≡ num e s }
    ensures truth { (r s : List Datum) (c : Condition) → AllByRecursion (λ n. column_of r n ≡ column_of s n) (cond_columns c) → truth c r ≡ truth c s }
{}

/// What names columns of a row alone reads the same if more values follow.
#[tactic(auto, using(crate::proofs::Names::num_front, crate::proofs::Names::truth_front))]
pub fn longer_rows()
    ensures value { (row more : List Datum) (e : Expression) → width_of (columns e) ≤ length row → num e (row ++ more) ≡ num e row }
    ensures truth { (row more : List Datum) (c : Condition) → width_of (cond_columns c) ≤ length row → truth c (row ++ more) ≡ truth c row }
{}

/// Behind another row the columns are those of this row, each with a number that is higher by the other's length.
/// What is shifted by that length reads there what it reads on this row alone.
#[tactic(auto, using(crate::proofs::Shifts::column_behind, crate::proofs::Shifts::num_behind, crate::proofs::Shifts::truth_behind))]
pub fn shifts()
    ensures column { (row more : List Datum) (n : ℕ) → column_of (row ++ more) (length row + n) ≡ column_of more n }
    ensures value { (row more : List Datum) (e : Expression) → num (shifted (length row) e) (row ++ more) ≡ num e more }
    ensures truth { (row more : List Datum) (c : Condition) → truth (shifted_cond (length row) c) (row ++ more) ≡ truth c more }
{}

/// The width of a list of columns is the least that all of them lie below; what is typed names columns that
/// are there.
#[tactic(auto, using(crate::proofs::Names::width_is, crate::proofs::Names::names_in_range, crate::proofs::Names::cond_names_in_range))]
pub fn widths()
    ensures least { (ns : List ℕ) (w : ℕ) → (width_of ns ≤ w) ↔ AllByRecursion (λ n. n < w) ns }
    ensures typed { (kinds : List ColumnKind) (e : Expression) → IsTyped kinds e → width_of (columns e) ≤ length kinds }
    ensures typed_cond { (kinds : List ColumnKind) (c : Condition) → IsTypedCond kinds c → width_of (cond_columns c) ≤ length kinds }
{}

/// A conjunction is True exactly if each of its members is. It names what they name, in their order, so no
/// member is wider.
#[tactic(auto, using(crate::proofs::Names::conjunction, crate::proofs::Names::true_by_members, crate::proofs::Names::names_of_members, crate::proofs::Names::members_narrower))]
pub fn conjunctions()
    ensures all { (row : List Datum) (cs : List Condition) → (truth (cond.All cs) row ≡ True) ↔ AllByRecursion (λ c. truth c row ≡ True) cs }
    ensures members { (row : List Datum) (c : Condition) → (truth c row ≡ True) ↔ AllByRecursion (λ m. truth m row ≡ True) (members c) }
    ensures names { (c : Condition) → cond_columns c ≡ flat_map cond_columns (members c) }
    ensures narrower { (c : Condition) (w : ℕ) → width_of (cond_columns c) ≤ w → AllByRecursion (λ m. width_of (cond_columns m) ≤ w) (members c) }
{}

/// A row of some kinds has as many values, each column's of its kind. Rows are joined as their kinds are, NULLs
/// are of all kinds, and an INTEGER is a BIGINT.
#[tactic(auto, using(crate::proofs::Rows::length_of_kinds, crate::proofs::Rows::kind_of_column, crate::proofs::Rows::kinds_joined, crate::proofs::Rows::kinds_of_nulls, crate::proofs::Rows::integers_are_bigints))]
pub fn rows_of_kinds()
    ensures length { (row : List Datum) (kinds : List ColumnKind) → AreOfKinds row kinds → length row ≡ length kinds }
    ensures column { (row : List Datum) (kinds : List ColumnKind) (n : ℕ) (k : ColumnKind) → AreOfKinds row kinds → slice_get kinds n ≡ Some k → IsOfKind (column_of row n) k }
    ensures joined { (row more : List Datum) (kinds others : List ColumnKind) → AreOfKinds row kinds → AreOfKinds more others → AreOfKinds (row ++ more) (kinds ++ others) }
    ensures padded { (kinds : List ColumnKind) → AreOfKinds (replicate (length kinds) Null) kinds }
    ensures wider { (x : Datum) → IsOfKind x kind.Integer → IsOfKind x kind.Bigint }
{}

/// On a row of its kinds a typed expression has a value of its sort, and a number is at most the bound in
/// absolute value. What may be stored is a BIGINT or a text.
#[tactic(auto, using(crate::proofs::Rows::value_of_sort, crate::proofs::Rows::number_within, crate::proofs::Rows::number_is_bigint, crate::proofs::Rows::text_is_text))]
pub fn typed_values()
    ensures sort { (kinds : List ColumnKind) (row : List Datum) → AreOfKinds row kinds → (e : Expression) (s : ExprSort) → sort_of kinds e ≡ Some s → IsOfSort s (num e row) }
    ensures bound { (kinds : List ColumnKind) (row : List Datum) → AreOfKinds row kinds → (e : Expression) (x : ℤ) → IsTyped kinds e → num e row ≡ Int x → unsigned_abs x ≤ bound_of kinds e }
    ensures number { (x : Datum) → IsOfSort Numeric x → IsStorable x → IsOfKind x kind.Bigint }
    ensures text { (x : Datum) → IsOfSort Textual x → IsOfKind x kind.Text }
{}

/// A column that is there suits, and a conjunction suits if its members do. What suits some columns suits
/// them with more behind them, and without those that it does not name.
#[tactic(auto, using(crate::proofs::Kept::column_suits, crate::proofs::Kept::members_suit, crate::proofs::Kept::conjunction_suits, crate::proofs::Kept::suits_fewer, crate::proofs::Kept::suits_cond_fewer))]
pub fn suiting()
    ensures column { (kinds : List ColumnKind) (n : ℕ) (k : ColumnKind) → slice_get kinds n ≡ Some k → Suits kinds (expr.Column n) }
    ensures members { (kinds : List ColumnKind) (c : Condition) → SuitsCond kinds c → AllByRecursion (SuitsCond kinds) (members c) }
    ensures conjunction { (kinds : List ColumnKind) (cs : List Condition) → AllByRecursion (SuitsCond kinds) cs → SuitsCond kinds (cond.All cs) }
    ensures more { (kinds more : List ColumnKind) (e : Expression) → width_of (columns e) ≤ length kinds → Suits kinds e → Suits (kinds ++ more) e }
    ensures fewer { (kinds more : List ColumnKind) (e : Expression) → width_of (columns e) ≤ length kinds → Suits (kinds ++ more) e → Suits kinds e }
    ensures more_cond { (kinds more : List ColumnKind) (c : Condition) → width_of (cond_columns c) ≤ length kinds → SuitsCond kinds c → SuitsCond (kinds ++ more) c }
    ensures fewer_cond { (kinds more : List ColumnKind) (c : Condition) → width_of (cond_columns c) ≤ length kinds → SuitsCond (kinds ++ more) c → SuitsCond kinds c }
{}

/// The test for being the same is passed by equal expressions, and by no others.
#[tactic(auto, using(crate::proofs::SameLemmas::decided))]
pub fn sameness()
    ensures equal { (e other : Expression) → is_same_expr e other ≡ true → e ≡ other }
    ensures same { (e other : Expression) → e ≡ other → is_same_expr e other ≡ true }
{}

fn is_send_and_sync<T: Send + Sync>() {}

// Each type of data may be handed to another thread, and be shared.
fn data_crosses_threads() {
    is_send_and_sync::<Kind>();
    is_send_and_sync::<Expr>();
    is_send_and_sync::<Term>();
    is_send_and_sync::<Cmp>();
    is_send_and_sync::<Cond>();
    is_send_and_sync::<Func>();
    is_send_and_sync::<Num>();
    is_send_and_sync::<Sort>();
    is_send_and_sync::<OutOfRange>();
    is_send_and_sync::<ItemFault>();
}
