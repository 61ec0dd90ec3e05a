//! The line of a refused tick.
ghost use Rattle.std.specs.Prelude.{◌≡◌, IfOk};
ghost use Rattle.sq_print.specs.Texts.{refused_line_text, told_refusal};

use crate::Refusal;
use crate::json_text::{push_number, push_quoted};
use sq_value::NoMemory;
use std::alloc::Global;

/// The line of a refused tick.
pub fn refusal_text(alloc: Global, tick: u64, refusal: &Refusal) -> Result<Vec<u8>, NoMemory>
    ensures { IfOk result (λ text. text.items ≡ told_refusal tick refusal.now) }
{
    match refusal {
        Refusal::Malformed { line } => refused_line(alloc, tick, b"malformed", *line),
        Refusal::Absent { line } => refused_line(alloc, tick, b"absent", *line),
        Refusal::Range { view } => range_line(alloc, tick, view.as_str()),
        Refusal::Unfinished => unfinished_line(alloc, tick),
    }
}

fn refused_line(alloc: Global, tick: u64, cause: &[u8], line: u64) -> Result<Vec<u8>, NoMemory>
    ensures { IfOk result (λ text. text.items ≡ refused_line_text tick cause.now line) }
{
    let mut out = Vec::from_slice(alloc, b"{\"tick\":")?;
    push_number(&mut out, tick)?;
    out.extend_from_slice(b",\"refused\":\"")?;
    out.extend_from_slice(cause)?;
    out.extend_from_slice(b"\",\"line\":")?;
    push_number(&mut out, line)?;
    out.extend_from_slice(b"}\n")?;
    Ok(out)
}

fn range_line(alloc: Global, tick: u64, view: &str) -> Result<Vec<u8>, NoMemory>
    ensures { IfOk result (λ text. text.items ≡ told_refusal tick (Refusal.Range view.now)) }
{
    let mut out = Vec::from_slice(alloc, b"{\"tick\":")?;
    push_number(&mut out, tick)?;
    out.extend_from_slice(b",\"refused\":\"range\",\"view\":")?;
    push_quoted(alloc, &mut out, view)?;
    out.extend_from_slice(b"}\n")?;
    Ok(out)
}

fn unfinished_line(alloc: Global, tick: u64) -> Result<Vec<u8>, NoMemory>
    ensures { IfOk result (λ text. text.items ≡ told_refusal tick Refusal.Unfinished) }
{
    let mut out = Vec::from_slice(alloc, b"{\"tick\":")?;
    push_number(&mut out, tick)?;
    out.extend_from_slice(b",\"refused\":\"unfinished\"}\n")?;
    Ok(out)
}
