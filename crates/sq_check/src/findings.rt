//! Which faults the blocks and set operations of a query have.
ghost use Rattle.std.specs.Prelude.{◌≡◌, ⊤, ◌||◌, OnOk};
ghost use Rattle.sq_check.specs.QueriesFaults.{first_noted, no_findings};
ghost use Rattle.sq_check.specs.QueriesFound.{Adds, one_block, with_operand};
ghost use Rattle.sq_typed.specs.Sizes.{HasFewGroups};
ghost use Rattle.sq_scope.specs.Scoped.{scoped_by};

use crate::bare::has_bare_column;
use crate::columns::has_long_list;
use crate::leaves::has_nested_aggregate;
use crate::resolve::Shape;
use crate::type_tests::{has_mixed_types, has_wide_expr};
use crate::widen::sorts_differ;
use sq_ast::BlockTree;
use sq_scope::{Scope, has_ambiguous_column, has_unknown_column};
use sq_typed::CheckKind;
use sq_value::NoMemory;
use std::alloc::Global;

/// Which faults the blocks and set operations gone through so far have.
#[derive(Clone, Copy, Debug)]
pub(crate) struct Findings {
    pub(crate) unknown_column: bool,
    pub(crate) ambiguous_column: bool,
    pub(crate) nested_aggregate: bool,
    pub(crate) not_grouped: bool,
    pub(crate) column_count: bool,
    pub(crate) type_mismatch: bool,
    // Told if no counts differ.
    pub(crate) sort_mismatch: bool,
    pub(crate) too_wide: bool,
    pub(crate) limit: bool,
}

impl Findings {
    /// Nothing.
    pub(crate) fn nothing() -> Findings
        ensures { result ≡ no_findings }
    {
        Findings {
            unknown_column: false,
            ambiguous_column: false,
            nested_aggregate: false,
            not_grouped: false,
            column_count: false,
            type_mismatch: false,
            sort_mismatch: false,
            too_wide: false,
            limit: false,
        }
    }

    /// Notes the faults of a block over its sources. The answer is `NoMemory` if memory runs out.
    pub(crate) fn note_block(
        &mut self,
        alloc: Global,
        scope: &Scope,
        block: &BlockTree,
    ) -> Result<(), NoMemory>
        requires { HasFewGroups block.now }
        ensures { OnOk result (Adds ⊤ self.old self.new (one_block (scoped_by scope.now block.now))) }
    {
        self.unknown_column |= has_unknown_column(scope, block);
        self.ambiguous_column |= has_ambiguous_column(scope, block);
        self.nested_aggregate |= has_nested_aggregate(block);
        self.not_grouped |= has_bare_column(alloc, scope, block)?;
        self.type_mismatch |= has_mixed_types(alloc, scope, block)?;
        self.too_wide |= has_wide_expr(alloc, scope, block)?;
        self.limit |= has_long_list(scope, block);
        Ok(())
    }

    /// Notes how a further operand of a set operation differs from those before it.
    pub(crate) fn note_operand(&mut self, before: &Shape, other: &Shape)
        ensures { self.new ≡ with_operand self.old before.now other.now }
    {
        self.column_count |= other.count != before.count;
        self.sort_mismatch |= sorts_differ(before.columns.as_slice(), other.columns.as_slice());
    }

    /// The first kind of fault that was noted; the statement may be one too many or have too many columns.
    pub(crate) fn first(&self, too_many: bool) -> Option<CheckKind>
        ensures { result ≡ first_noted self.now too_many }
    {
        if self.unknown_column {
            Some(CheckKind::UnknownColumn)
        } else if self.ambiguous_column {
            Some(CheckKind::AmbiguousColumn)
        } else if self.nested_aggregate {
            Some(CheckKind::NestedAggregate)
        } else if self.not_grouped {
            Some(CheckKind::NotGrouped)
        } else if self.column_count {
            Some(CheckKind::ColumnCount)
        } else if self.type_mismatch || self.sort_mismatch {
            Some(CheckKind::TypeMismatch)
        } else if self.too_wide {
            Some(CheckKind::TooWide)
        } else if too_many || self.limit {
            Some(CheckKind::Limit)
        } else {
            None
        }
    }
}
