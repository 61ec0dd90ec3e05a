//! The stars of a select list, each once: a star may stand for many columns.
ghost use Rattle.std.specs.Prelude.{◌≡◌, ◌||◌, not, Bool, IfOk, OnOk};
ghost use Rattle.std.specs.List.{list_any};
ghost use Rattle.sq_ast.specs.declared.query.ItemTree.{ItemTree as Item};
ghost use Rattle.sq_scope.specs.TypesItems.{is_same_star, is_seen};

use sq_ast::ItemTree;
use sq_value::NoMemory;
use std::alloc::Global;
use std::collections::BTreeSet;

/// The items with each star once, however often it is among them: one of these passes a test exactly if one of all items does. The
/// answer is `NoMemory` if memory runs out.
pub fn each_star_once<'a>(
    alloc: Global,
    items: &'a [ItemTree],
) -> Result<Vec<&'a ItemTree>, NoMemory>
    ensures { IfOk result (λ kept. (test : Item → Bool) → list_any (λ i. test i.now) kept.items ≡ list_any test items.now) }
{
    let mut kept = Vec::new(alloc);
    let mut seen = Stars {
        plain: false,
        named: BTreeSet::new(alloc),
    };
    for item in items {
        let is_new = seen.take_in(item)?;
        if is_new {
            kept.push(item)?;
        }
    }
    Ok(kept)
}

// The stars that were seen: whether a plain one, and of which sources.
#[derive(Drop)]
pub struct Stars<'a> {
    pub plain: bool,
    pub named: BTreeSet<&'a str>,
}

impl<'a> Stars<'a> {
    // Whether the item is no star that was seen. From now on it is one.
    fn take_in(&mut self, item: &'a ItemTree) -> Result<bool, NoMemory>
        ensures told { IfOk result (λ is_new. is_new ≡ not (is_seen self.old item.now)) }
        ensures seen { OnOk result ((i : Item) → is_seen self.new i ≡ (is_seen self.old i || is_same_star i item.now)) }
    {
        match item {
            ItemTree::Expr { .. } => Ok(true),
            ItemTree::Star => {
                let is_new = !self.plain;
                self.plain = true;
                Ok(is_new)
            }
            ItemTree::StarOf(of) => {
                let is_new = self.named.insert(of.as_str())?;
                Ok(is_new)
            }
        }
    }
}
