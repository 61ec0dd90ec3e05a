//! What holds of faults and of typed programs, as the contracts of functions that do nothing.
ghost use Rattle.std.specs.Prelude.{◌≡◌, ℕ, List};
ghost use Rattle.sq_ast.specs.declared.statement.Statement.{Statement as StatementTree};
ghost use Rattle.sq_typed.specs.declared.check_kind.CheckKind.{CheckKind as Kind};
ghost use Rattle.sq_typed.specs.Faults.{HasFault, has_kind, kinds_in_order, refused};
ghost use Rattle.sq_typed.specs.FaultsOf.{IsFirst, HaveNoFault, FirstFault};
ghost use Rattle.sq_typed.specs.Programs.{Typed};
ghost use Rattle.sq_typed.specs.Views.{Meant};
ghost use Rattle.std.specs.Prelude.{None, Some};

/// A statement has at most one fault behind those before it: the first kind in their order that it has.
#[tactic(auto, using(crate::proofs::FaultLaws::faults))]
pub fn one_fault()
    ensures one { (before : List StatementTree) (s : StatementTree) (kind other : Kind) → HasFault before s kind → HasFault before s other → kind ≡ other }
    ensures first { (before : List StatementTree) (s : StatementTree) (kind : Kind) → HasFault before s kind → IsFirst (has_kind before s) kinds_in_order kind }
{}

/// `refused` names the first statement that has a fault, and nothing exactly if no statement has one.
#[tactic(auto, using(crate::proofs::FaultLaws::faults))]
pub fn one_refusal()
    ensures accepted { (statements : List StatementTree) → refused statements ≡ None → HaveNoFault statements }
    ensures not_refused { (statements : List StatementTree) → HaveNoFault statements → refused statements ≡ None }
    ensures refused { (statements : List StatementTree) (number : ℕ) (kind : Kind) → refused statements ≡ Some (number, kind) → FirstFault statements number kind }
{}

/// Statements mean at most one program.
#[tactic(auto, using(crate::proofs::FaultLaws::one_meaning))]
pub fn one_program()
    ensures { (statements : List StatementTree) (p q : Meant) → Typed statements p → Typed statements q → p ≡ q }
{}
