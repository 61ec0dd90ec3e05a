//! The program of an input, and the bytes of its change lines.
ghost use Rattle.std.specs.Prelude.{◌≤◌, ◌^◌, length};
ghost use Rattle.std.specs.List.{AllByRecursion};
ghost use Rattle.sq_typed.specs.Checked.{Spelling};

use sq_ast::Statement;
use sq_check::check;
use sq_parse::statements;
use sq_token::{Token, tokens};
use sq_typed::Program;
use std::alloc::Global;
use std::test::Fail;

/// The most bytes that a program's text may have.
const LONGEST_TEXT: usize = 1_048_576;

/// The text before the first line `---`, and the bytes behind that line.
pub fn split(input: &[u8]) -> Option<(&[u8], &[u8])> {
    let mut start = 0usize;
    for end in 0..input.len() {
        if input[end] == b'\n' {
            if part(input, start, end) == b"---".as_slice() {
                return Some((part(input, 0, start), part(input, end + 1, input.len())));
            }
            start = end + 1;
        }
    }
    None
}

// The bytes from one place to another, or none if there is no such part.
fn part(input: &[u8], start: usize, end: usize) -> &[u8] {
    if start <= end && end <= input.len() {
        &input[start..end]
    } else {
        b""
    }
}

/// The program of a text.
pub fn program_of(alloc: Global, text: &[u8]) -> Result<Program, Fail> {
    if text.len() > LONGEST_TEXT {
        return Err(Fail::from("too long"));
    }
    let Ok(text) = std::str::from_utf8(text) else {
        return Err(Fail::from("not UTF-8"));
    };
    let tokens = tokens(alloc, text.as_bytes())?;
    program_of_tokens(alloc, &tokens)
}

// The program that these tokens spell.
fn program_of_tokens(alloc: Global, tokens: &[Token]) -> Result<Program, Fail>
    requires { length tokens.now ≤ 2 ^ 20 }
{
    let statements = statements(alloc, tokens)?;
    program_of_statements(alloc, &statements)
}

// The program of statements, each of which is spelled by some tokens.
fn program_of_statements(alloc: Global, statements: &[Statement]) -> Result<Program, Fail>
    requires { AllByRecursion Spelling statements.now }
{
    let program = check(alloc, statements)?;
    Ok(program)
}
