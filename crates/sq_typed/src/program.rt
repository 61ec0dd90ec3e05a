//! A program that was checked: its relations, and the typed query of each view.
ghost use Rattle.std.specs.Prelude.{◌≡◌, ◌<◌, length, slice_get, Some};
ghost use Rattle.sq_typed.specs.Checked.{IsChecked};

use crate::Query;
use sq_catalog::Catalog;
use sqlite_items::Items;
use std::marker::Model;

/// A program in which no statement has a fault. Contracts see it as its relations and the typed query of each view.
///
/// Some list of statements, each of which is spelled by tokens and none of which has a fault, means this program.
#[derive(Debug, Drop)]
pub struct Program {
    catalog: Catalog,
    // By the number of the view.
    queries: Items<Query>,
}

impl Model for Program {
    ghost use Rattle.std.specs.Coded.{coded_list};
    ghost use Rattle.sq_catalog.specs.contracts.relation.Relation as relation;
    ghost use Rattle.sq_typed.specs.contracts.query.Query as selection;
    ghost use Rattle.sq_typed.specs.Checked.{IsChecked, meant_code};
    ghost use Rattle.sq_typed.specs.Views.{Meant};

    ghost Value = { Meant };

    ghost coded = { meant_code (coded_list (relation.the_row).coded) (coded_list (selection.the_row).coded) };

    ghost view = { λ p. record { catalog = p.catalog; queries = p.queries } };

    ghost invariant = { λ p. IsChecked (record { catalog = p.catalog; queries = p.queries }) };
}

impl Program {
    /// The program of these relations, with the queries of the views among them in order of creation. Takes no memory.
    ///
    /// Some list of statements, each of which is spelled by tokens and none of which has a fault, means this program.
    pub fn of(catalog: Catalog, queries: Items<Query>) -> Program
        requires { IsChecked (record { catalog = catalog; queries = queries }) }
        ensures { result ≡ record { catalog = catalog; queries = queries } }
    {
        Program { catalog, queries }
    }

    /// The relations. Takes no memory.
    pub fn catalog(&self) -> &Catalog
        ensures relations { result.now ≡ self.now.catalog }
        ensures checked { IsChecked self.now }
    {
        &self.catalog
    }

    /// The query of the view with this number, counted from 0 among the views in order of creation. Takes no memory.
    pub fn query(&self, view: u32) -> &Query
        requires { view < length self.now.queries }
        ensures query { slice_get self.now.queries view ≡ Some result.now }
        ensures checked { IsChecked self.now }
    {
        &self.queries.as_slice()[view as usize]
    }
}
