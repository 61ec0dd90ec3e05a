//! The names of views by their numbers, and tables without rows.
ghost use Rattle.std.specs.Prelude.{◌≡◌, map, IfOk};
ghost use Rattle.sq_bridge.specs.Rows.{listed};
ghost use Rattle.sq_compile.specs.Relations.{empty_tables as empty_lists, view_name as view_name_lem};

use sq_catalog::Catalog;
use sq_value::{NoMemory, Str};
use sq_zset::{Group, ZSet};
use std::alloc::Global;

/// The name of a view, by its number among the views.
pub fn view_name(alloc: Global, catalog: &Catalog, view: u32) -> Result<Str, NoMemory>
    ensures { IfOk result (λ name. name ≡ view_name_lem catalog.now view) }
{
    let mut left = view;
    for i in 0..catalog.len() {
        let relation = catalog.at(i);
        if relation.kind.is_view() {
            if left == 0 {
                return relation.name.clone_str(alloc);
            }
            left -= 1;
        }
    }
    Str::of(alloc, "")
}

/// A Z-set without rows for each table.
pub fn empty_tables(alloc: Global, catalog: &Catalog) -> Result<Vec<ZSet>, NoMemory>
    ensures { IfOk result (λ tables. tables.items ≡ map listed (empty_lists catalog.now)) }
{
    let mut tables = Vec::new(alloc);
    for i in 0..catalog.len() {
        if catalog.at(i).kind.is_table() {
            tables.push(ZSet::empty(alloc))?;
        }
    }
    Ok(tables)
}
