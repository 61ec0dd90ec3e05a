//! The line that tells of a program's fault.
ghost use Rattle.std.specs.Prelude.{◌≡◌, IfOk};
ghost use Rattle.sq_print.specs.FaultTexts.{told_fault, kind_text, plain_fault, numbered_fault, placed_fault, statement_fault};

use crate::ProgramFault;
use crate::json_text::{push_number, push_quoted};
use sq_parse::ParseFault;
use sq_token::LexFault;
use sq_typed::CheckKind;
use sq_value::NoMemory;
use std::alloc::Global;

/// The one line that tells of a fault of a program. A fault that holds a `Memory` has no line.
pub fn fault_text(alloc: Global, fault: &ProgramFault) -> Result<Vec<u8>, NoMemory>
    ensures { IfOk result (λ line. line.items ≡ told_fault fault.now) }
{
    match fault {
        ProgramFault::TextTooLong => plain_line(alloc, b"text too long"),
        ProgramFault::NoEnd => plain_line(alloc, b"no end line"),
        ProgramFault::NotUtf8 => plain_line(alloc, b"not UTF-8"),
        ProgramFault::Lex(fault) => lex_line(alloc, *fault),
        ProgramFault::Parse(fault) => parse_line(alloc, *fault),
        ProgramFault::Check { number, kind } => statement_line(alloc, kind_name(*kind), *number),
        ProgramFault::Range { view } => range_line(alloc, view.as_str()),
    }
}

fn lex_line(alloc: Global, fault: LexFault) -> Result<Vec<u8>, NoMemory>
    ensures { IfOk result (λ line. line.items ≡ told_fault (ProgramFault.Lex fault)) }
{
    match fault {
        LexFault::BadByte { at } => placed_line(alloc, b"bad byte", at),
        LexFault::OpenText { at } => placed_line(alloc, b"open text", at),
        LexFault::OpenName { at } => placed_line(alloc, b"open name", at),
        LexFault::OpenComment { at } => placed_line(alloc, b"open comment", at),
        LexFault::LongNumber { at } => placed_line(alloc, b"long number", at),
        LexFault::Memory => Ok(Vec::new(alloc)),
    }
}

fn parse_line(alloc: Global, fault: ParseFault) -> Result<Vec<u8>, NoMemory>
    ensures { IfOk result (λ line. line.items ≡ told_fault (ProgramFault.Parse fault)) }
{
    match fault {
        ParseFault::NotGrammar { number } => statement_line(alloc, b"not grammar", number),
        ParseFault::TooDeep { number } => statement_line(alloc, b"too deep", number),
        ParseFault::Memory => Ok(Vec::new(alloc)),
    }
}

// What a kind of fault of a statement is called.
fn kind_name(kind: CheckKind) -> &'static [u8]
    ensures { result.now ≡ kind_text kind }
{
    match kind {
        CheckKind::DuplicateName => b"duplicate name",
        CheckKind::UnknownRelation => b"unknown relation",
        CheckKind::UnnamedColumn => b"unnamed column",
        CheckKind::DuplicateColumn => b"duplicate column",
        CheckKind::UnknownColumn => b"unknown column",
        CheckKind::AmbiguousColumn => b"ambiguous column",
        CheckKind::NestedAggregate => b"nested aggregate",
        CheckKind::NotGrouped => b"not grouped",
        CheckKind::ColumnCount => b"column count",
        CheckKind::TypeMismatch => b"type mismatch",
        CheckKind::TooWide => b"too wide",
        CheckKind::Limit => b"limit",
    }
}

fn plain_line(alloc: Global, cause: &[u8]) -> Result<Vec<u8>, NoMemory>
    ensures { IfOk result (λ line. line.items ≡ plain_fault cause.now) }
{
    let mut line = Vec::from_slice(alloc, b"{\"program\":\"")?;
    line.extend_from_slice(cause)?;
    line.extend_from_slice(b"\"}\n")?;
    Ok(line)
}

fn placed_line(alloc: Global, cause: &[u8], at: u32) -> Result<Vec<u8>, NoMemory>
    ensures { IfOk result (λ line. line.items ≡ placed_fault cause.now at) }
{
    numbered_line(alloc, cause, b"at", at)
}

fn statement_line(alloc: Global, cause: &[u8], number: u32) -> Result<Vec<u8>, NoMemory>
    ensures { IfOk result (λ line. line.items ≡ statement_fault cause.now number) }
{
    numbered_line(alloc, cause, b"statement", number)
}

// The line of a fault with a number, which stands in a member of this name.
fn numbered_line(alloc: Global, cause: &[u8], name: &[u8], number: u32) -> Result<Vec<u8>, NoMemory>
    ensures { IfOk result (λ line. line.items ≡ numbered_fault cause.now name.now number) }
{
    let mut line = Vec::from_slice(alloc, b"{\"program\":\"")?;
    line.extend_from_slice(cause)?;
    line.extend_from_slice(b"\",\"")?;
    line.extend_from_slice(name)?;
    line.extend_from_slice(b"\":")?;
    push_number(&mut line, number as u64)?;
    line.extend_from_slice(b"}\n")?;
    Ok(line)
}

fn range_line(alloc: Global, view: &str) -> Result<Vec<u8>, NoMemory>
    ensures { IfOk result (λ line. line.items ≡ told_fault (ProgramFault.Range view.now)) }
{
    let mut line = Vec::from_slice(alloc, b"{\"program\":\"range\",\"view\":")?;
    push_quoted(alloc, &mut line, view)?;
    line.extend_from_slice(b"}\n")?;
    Ok(line)
}
