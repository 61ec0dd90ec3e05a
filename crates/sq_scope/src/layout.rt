//! The kinds of the columns of some sources, and where those of each source begin.
ghost use Rattle.std.specs.Prelude.{◌<◌, ◌^◌, IfOk, length};
ghost use Rattle.sq_scope.specs.NamesFound.{IsLaidOut};
ghost use Rattle.sq_typed.specs.Scopes.{columns_in};

use crate::Source;
use sq_expr::Kind;
use sq_value::NoMemory;
use std::alloc::Global;

// Where the columns of the sources stand.
#[derive(Debug, Drop)]
pub struct Layout {
    // Of all columns.
    pub kinds: Vec<Kind>,
    // Where the columns of each source begin, and last where all end.
    pub begins: Vec<usize>,
}

// Where the columns of the sources stand.
pub fn laid_out(alloc: Global, sources: &[Source]) -> Result<Layout, NoMemory>
    requires few { length (columns_in sources.now) < 2 ^ 32 }
    ensures { IfOk result (λ layout. IsLaidOut sources.now layout) }
{
    let mut kinds = Vec::new(alloc);
    let mut begins = Vec::with_capacity(alloc, sources.len() + 1)?;
    begins.push(0)?;
    for source in sources {
        for column in source.columns() {
            kinds.push(column.kind)?;
        }
        begins.push(kinds.len())?;
    }
    Ok(Layout { kinds, begins })
}
