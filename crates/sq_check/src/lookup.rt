//! Sources by name.
ghost use Rattle.std.specs.Prelude.{◌≡◌, unwrap_or};
ghost use Rattle.sq_typed.specs.Resolved.{relation_columns};

use sq_catalog::{Catalog, Column};
use sq_value::Str;

/// The columns of the relation with this name; none if there is none.
pub(crate) fn columns_named<'a>(catalog: &'a Catalog, name: &Str) -> &'a [Column]
    ensures { result.now ≡ relation_columns name.now catalog.now }
{
    let Some(place) = catalog.find(name.as_str()) else {
        return &[];
    };
    catalog.at(place).columns.as_slice()
}

/// The name of a source: its alias, or else that of its relation.
pub(crate) fn source_name<'a>(name: &'a Str, alias: &'a Option<Str>) -> &'a Str
    ensures { result.now ≡ unwrap_or alias.now name.now }
{
    match alias {
        Some(alias) => alias,
        None => name,
    }
}
