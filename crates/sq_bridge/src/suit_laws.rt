//! Which kinds of rows the operators take, and which of them may be left out.
ghost use Rattle.std.specs.Prelude.{◌≡◌, ◌++◌, ◌≤◌, ℕ, List, [], length, map, true};
ghost use Rattle.std.specs.List.{AllByRecursion};
ghost use Rattle.sq_expr.specs.Fits.{Suits, SuitsCond};
ghost use Rattle.sq_expr.specs.declared.cond.Cond.TheVariants as condition;
ghost use Rattle.sq_expr.specs.declared.cond.Cond.{Cond as Condition};
ghost use Rattle.sq_expr.specs.declared.expr.Kind.{Kind as ColumnKind};
ghost use Rattle.sq_ops.specs.Aggregates.{SuitsSpec};
ghost use Rattle.sq_typed.specs.Fit.{grouping_fits};
ghost use Rattle.sq_typed.specs.From.{Row};
ghost use Rattle.sq_typed.specs.Laws.{AreOfWidth};
ghost use Rattle.sq_typed.specs.Numbered.{kind_of};
ghost use Rattle.sq_typed.specs.declared.query.Grouping.{Grouping as Groups};
ghost use Rattle.sq_bridge.specs.Groups.{group_items, group_spec};
ghost use Rattle.sq_bridge.specs.Joins.{first_columns, joined_on, same_rows};
ghost use Rattle.sq_bridge.specs.Rows.{PairingSuits, Rows, kept_on_all, listed, projected};

/// A join on conditions that suit the columns of both sides takes rows of these kinds; so does a pairing by all columns, if the sides have
/// as many; and all conditions together suit what each suits.
pub fn joins_suit_their_sides()
    ensures joined { (left right : List ColumnKind) (conds : List Condition) → AllByRecursion (SuitsCond (left ++ right)) conds → PairingSuits (joined_on (length left) (length right) conds) left right }
    ensures same { (left right : List ColumnKind) → length left ≡ length right → PairingSuits (same_rows (length left)) left right }
    ensures together { (kinds : List ColumnKind) (conds : List Condition) → AllByRecursion (SuitsCond kinds) conds → SuitsCond kinds (condition.All conds) }
{}

/// What is projected for a group suits the columns, and the aggregate takes rows of the kinds of what is projected. The first columns suit
/// rows that have them.
pub fn groups_suit_their_columns()
    ensures items { (kinds : List ColumnKind) (g : Groups) → grouping_fits kinds g ≡ true → AllByRecursion (Suits kinds) (group_items g) }
    ensures spec { (kinds : List ColumnKind) (g : Groups) → grouping_fits kinds g ≡ true → SuitsSpec (group_spec g) (map (kind_of kinds) (group_items g)) }
    ensures first { (w : ℕ) (kinds : List ColumnKind) → w ≤ length kinds → AllByRecursion (Suits kinds) (first_columns w) }
{}

/// To keep on no conditions changes nothing, and to project all columns of rows changes nothing.
pub fn some_operators_change_nothing()
    ensures kept { (z : Rows) → kept_on_all [] z ≡ z }
    ensures projected { (w : ℕ) (rows : List Row) → AreOfWidth w rows → projected (first_columns w) (listed rows) ≡ listed rows }
{}
