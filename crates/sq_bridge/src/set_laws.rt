//! Set operations as operators over Z-sets.
ghost use Rattle.std.specs.Prelude.{◌≡◌, ℕ, List, fold};
ghost use Rattle.sq_ast.specs.declared.query.SetOp.{SetOp as Operation};
ghost use Rattle.sq_typed.specs.From.{Answer, Row};
ghost use Rattle.sq_typed.specs.Laws.{AreOfWidth};
ghost use Rattle.sq_typed.specs.Queries.{intersect_rows, set_rows};
ghost use Rattle.sq_bridge.specs.Meaning.{AreMembersOf, AreStepsOf, Holds, chain_rows, common_rows};
ghost use Rattle.sq_bridge.specs.Nodes.{Node};
ghost use Rattle.sq_bridge.specs.Queries.{both_of, chain_node, set_result, step_node};
ghost use Rattle.sq_bridge.specs.Rows.{listed};

/// UNION ALL, UNION and EXCEPT of rows of one width, and INTERSECT.
#[tactic(auto, using(crate::proofs::Combining::set_is, crate::proofs::Combining::intersect_is))]
pub fn set_operations_are_operators()
    ensures steps { (op : Operation) (w : ℕ) (rows more : List Row) → AreOfWidth w rows → AreOfWidth w more → set_result op w (listed rows) (listed more) ≡ listed (set_rows op rows more) }
    ensures intersection { (w : ℕ) (rows more : List Row) → AreOfWidth w rows → AreOfWidth w more → both_of w (listed rows) (listed more) ≡ listed (intersect_rows rows more) }
{}

/// Chains, step by step from the left.
pub fn chains_go_step_by_step()
    ensures chain { (n : Node) (rows : List Row) (ms : List (Operation × Node)) (steps : List (Operation × Answer)) → Holds n rows → AreStepsOf n.width ms steps
        → Holds (chain_node n ms) (chain_rows rows steps) }
    ensures intersection { (n : Node) (rows : List Row) (ms : List Node) (others : List Answer) → Holds n rows → AreMembersOf n.width ms others
        → Holds (fold (step_node both_of) n ms) (common_rows rows others) }
{}
