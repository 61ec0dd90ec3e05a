//! Names that stand twice in a list.
ghost use Rattle.std.specs.Prelude.{◌≡◌, map, IfOk};
ghost use Rattle.sq_typed.specs.Scopes.{repeats};

use sq_value::NoMemory;
use std::alloc::Global;
use std::collections::BTreeSet;

/// Whether a name stands twice in the list, or `NoMemory` if memory runs out.
pub fn repeats(alloc: Global, names: &[&str]) -> Result<bool, NoMemory>
    ensures { IfOk result (λ found. found ≡ repeats (map (λ name. name.now) names.now)) }
{
    let mut seen = BTreeSet::new(alloc);
    for name in names {
        if !seen.insert(*name)? {
            return Ok(true);
        }
    }
    Ok(false)
}
