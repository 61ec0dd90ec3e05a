//! The first sources of a scope, as the row that an expression is over.
ghost use Rattle.std.specs.Prelude.{◌≡◌, take};
ghost use Rattle.sq_typed.specs.Scopes.{kinds_in, number_of};

use crate::Scope;
use sq_ast::ColRef;
use sq_expr::Kind;
use std::marker::Model;

/// The first sources of a scope: an expression or a condition is over their columns. Contracts see it as these sources.
#[derive(Debug, Drop)]
pub struct Row<'a> {
    scope: &'a Scope<'a>,
    sources: usize,
}

impl<'a> Model for Row<'a> {
    ghost use Rattle.std.specs.Prelude.{take};
    ghost use Rattle.sq_typed.specs.Scopes.{Scope as Sources};

    ghost Value = { Sources };

    ghost view = { λ r. take r.sources r.scope.now };
}

impl<'a> Row<'a> {
    // Of all sources.
    pub fn of(scope: &'a Scope<'a>) -> Row<'a>
        ensures { result ≡ scope.now }
    {
        Row {
            scope,
            sources: scope.len(),
        }
    }

    // Of so many sources, or of all if there are not so many.
    pub fn front(scope: &'a Scope<'a>, sources: usize) -> Row<'a>
        ensures { result ≡ take sources scope.now }
    {
        Row { scope, sources }
    }

    // The number of the column that the reference means.
    pub fn number_of(&self, r: &ColRef) -> u32
        ensures { result ≡ number_of self.now r.now }
    {
        self.scope.number_of(self.sources, r)
    }

    // The kinds of the columns.
    pub fn kinds(&self) -> &[Kind]
        ensures { result.now ≡ kinds_in self.now }
    {
        self.scope.kinds(self.sources)
    }
}
