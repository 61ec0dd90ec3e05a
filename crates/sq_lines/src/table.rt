//! The table that a change line names.
ghost use Rattle.std.specs.Prelude.{◌≡◌, option_map};
ghost use Rattle.serde_json.specs.View.{view};
ghost use Rattle.sq_lines.specs.Tables.{table_named as table_named_lem, table_meant as table_meant_lem};

use serde_json::Value as Json;
use sq_catalog::{Catalog, Relation};

// The table that the value names, if it is a text, and its number among the tables.
pub(crate) fn table_meant<'a>(
    catalog: &'a Catalog,
    name: Option<&Json>,
) -> Option<(u32, &'a Relation)>
    ensures { option_map (λ t. (t.0, t.1.now)) result ≡ table_meant_lem catalog.now (option_map (λ v. view v.now) name.entry) }
{
    match name {
        Some(Json::String(text)) => table_named(catalog, text.as_str()),
        _ => None,
    }
}

fn table_named<'a>(catalog: &'a Catalog, name: &str) -> Option<(u32, &'a Relation)>
    ensures { option_map (λ t. (t.0, t.1.now)) result ≡ table_named_lem name.now catalog.now }
{
    let mut number = 0;
    for i in 0..catalog.len() {
        let relation = catalog.at(i);
        if relation.kind.is_table() {
            if name == relation.name.as_str() {
                return Some((number, relation));
            }
            number += 1;
        }
    }
    None
}
