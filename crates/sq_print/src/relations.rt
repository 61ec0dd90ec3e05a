//! The lines of a program's relations.
ghost use Rattle.std.specs.Prelude.{◌≡◌, ◌++◌, IfOk, OnOk, map};
ghost use Rattle.json.specs.Print.{quoted};
ghost use Rattle.sq_print.specs.Catalogues.{catalogue_text, columns_text, kind_end, kind_name, relation_text};
ghost use Rattle.sq_print.specs.Texts.{with_commas};

use crate::json_text::{push_comma, push_quoted};
use sq_catalog::{Catalog, Column, Relation, RelationKind};
use sq_value::NoMemory;
use std::alloc::Global;

/// The relations of a program, a line for each in order of creation: `{"table":"t","columns":["a","b"]}`, and for a view
/// `{"view":"v","columns":["a"],"printed":true}`; or `NoMemory` when memory runs out.
pub fn relation_lines(alloc: Global, catalog: &Catalog) -> Result<Vec<u8>, NoMemory>
    ensures { IfOk result (λ text. text.items ≡ catalogue_text catalog.now) }
{
    let mut out = Vec::new(alloc);
    for i in 0..catalog.len() {
        push_relation(alloc, &mut out, catalog.at(i))?;
    }
    Ok(out)
}

// Appends the line of a relation.
fn push_relation(alloc: Global, out: &mut Vec<u8>, relation: &Relation) -> Result<(), NoMemory>
    ensures { OnOk result (out.new.items ≡ out.old.items ++ relation_text relation.now) }
{
    out.extend_from_slice(b"{\"")?;
    out.extend_from_slice(name_of(relation.kind))?;
    out.extend_from_slice(b"\":")?;
    push_quoted(alloc, out, relation.name.as_str())?;
    out.extend_from_slice(b",\"columns\":")?;
    push_columns(alloc, out, relation.columns.as_slice())?;
    out.extend_from_slice(end_of(relation.kind))?;
    Ok(())
}

fn name_of(kind: RelationKind) -> &'static [u8]
    ensures { result.now ≡ kind_name kind }
{
    match kind {
        RelationKind::Table => b"table",
        RelationKind::View { .. } => b"view",
    }
}

fn end_of(kind: RelationKind) -> &'static [u8]
    ensures { result.now ≡ kind_end kind }
{
    match kind {
        RelationKind::Table => b"}\n",
        RelationKind::View { printed } => printed_end(printed),
    }
}

fn printed_end(printed: bool) -> &'static [u8]
    ensures { result.now ≡ kind_end (RelationKind.View printed) }
{
    if printed {
        b",\"printed\":true}\n"
    } else {
        b",\"printed\":false}\n"
    }
}

// Appends the names of columns as an array.
fn push_columns(alloc: Global, out: &mut Vec<u8>, columns: &[Column]) -> Result<(), NoMemory>
    ensures { OnOk result (out.new.items ≡ out.old.items ++ columns_text columns.now) }
{
    out.extend_from_slice(b"[")?;
    push_names(alloc, out, columns)?;
    out.extend_from_slice(b"]")?;
    Ok(())
}

fn push_names(alloc: Global, out: &mut Vec<u8>, columns: &[Column]) -> Result<(), NoMemory>
    ensures { OnOk result (out.new.items ≡ out.old.items ++ with_commas (map (λ c. quoted c.name) columns.now)) }
{
    for i in 0..columns.len() {
        push_comma(out, i)?;
        push_quoted(alloc, out, columns[i].name.as_str())?;
    }
    Ok(())
}
