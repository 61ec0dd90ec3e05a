//! Whole queries as operators over Z-sets.
ghost use Rattle.std.specs.Prelude.{List};
ghost use Rattle.sq_expr.specs.declared.expr.Kind.{Kind as ColumnKind};
ghost use Rattle.sq_typed.specs.Queries.{Contents};
ghost use Rattle.sq_bridge.specs.Meaning.{AreWorthRelations, BlameQueries, HoldKinds, HoldSorts, MeanQueries};
ghost use Rattle.sq_bridge.specs.Nodes.{Node};

/// The node of a query that fits is the Z-set of the list that the query gives, whether or not something is out of range.
pub fn queries_are_operators()
    ensures { (relations : List Contents) (nodes : List Node) (kinds : List (List ColumnKind)) → HoldSorts relations kinds → AreWorthRelations nodes relations
        → MeanQueries nodes relations kinds }
{}

/// Over relations with rows of their kinds, the node of a query that fits has a fault exactly if the query is out of range: at a place with
/// more than 2^61 rows, or by an item, an argument or a SUM outside BIGINT.
pub fn faults_of_queries_are_those_of_nodes()
    ensures { (relations : List Contents) (nodes : List Node) (kinds : List (List ColumnKind)) → HoldKinds relations kinds → AreWorthRelations nodes relations
        → BlameQueries nodes relations kinds }
{}
