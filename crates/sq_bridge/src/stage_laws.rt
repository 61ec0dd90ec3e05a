//! FROM and WHERE, source by source, as operators over Z-sets.
ghost use Rattle.std.specs.Prelude.{ℕ, List, ◌∷◌};
ghost use Rattle.sq_expr.specs.declared.cond.Cond.{Cond as Condition};
ghost use Rattle.sq_typed.specs.From.{Answer, Row, Source};
ghost use Rattle.sq_typed.specs.Laws.{AreOfWidth, HasItsWidth, HaveTheirWidths};
ghost use Rattle.sq_typed.specs.declared.query.FromJoin.{FromJoin as Join};
ghost use Rattle.sq_bridge.specs.Meaning.{AreNamed, AreWorth, BeginsWithComma, IsWorth, MeansJoined, MeansKept, MeansWhere};
ghost use Rattle.sq_bridge.specs.Nodes.{Node, NodeSource};

/// J_k and F_k of a source: the rows after it is joined, and those on which its members of WHERE are True. The keys are found among the
/// members of ON and, but for a left join, the members of WHERE whose latest source this is; behind a left join these are kept.
#[tactic(auto, using(crate::proofs::Staging::joined_rows_are, crate::proofs::Staging::kept_rows_are))]
pub fn stages_are_operators()
    ensures joined { (w : ℕ) (rows : List Row) (n : Node) (a : Answer) (conds : List Condition) (join : Join) → AreOfWidth w rows → HasItsWidth a → IsWorth n a → MeansJoined w rows n a conds join }
    ensures kept { (w : ℕ) (rows : List Row) (n : Node) (a : Answer) (conds : List Condition) (join : Join) → AreOfWidth w rows → HasItsWidth a → IsWorth n a → MeansKept w rows n a conds join }
{}

/// The rows that WHERE keeps are those that go on from the last source.
#[tactic(auto, using(crate::proofs::Staging::joined_rows_kept))]
pub fn where_keeps_the_last_rows()
    ensures { (conds : List Condition) (ns : List NodeSource) (s : Source) (ss : List Source) → AreWorth ns (s ∷ ss) → BeginsWithComma s → HaveTheirWidths (s ∷ ss)
        → AreNamed conds (s ∷ ss) → MeansWhere conds ns (s ∷ ss) }
{}
