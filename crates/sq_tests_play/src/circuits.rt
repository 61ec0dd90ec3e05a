//! The circuit of a program, which is given as a text.
ghost use Rattle.std.specs.Prelude.{◌≡◌, ◌≤◌, ◌^◌, IfOk, length};
ghost use Rattle.std.specs.List.{AllByRecursion};
ghost use Rattle.sq_ast.specs.Sources.{program_sources};
ghost use Rattle.sq_typed.specs.Checked.{Spelling};
ghost use Rattle.sq_typed.specs.Sources.{sources_in};

use sq_ast::Statement;
use sq_check::check;
use sq_circuit::Circuit;
use sq_parse::statements;
use sq_plan::plan;
use sq_token::{Token, tokens};
use sq_typed::Program;
use std::alloc::Global;
use std::test::Fail;

// The program of statements, each of which is spelled by some tokens.
fn program_of_statements(alloc: Global, statements: &[Statement]) -> Result<Program, Fail>
    requires { AllByRecursion Spelling statements.now }
    ensures { IfOk result (λ program. sources_in program ≡ program_sources statements.now) }
{
    let program = check(alloc, statements)?;
    Ok(program)
}

// The program that these tokens spell.
fn program_of_tokens(alloc: Global, tokens: &[Token]) -> Result<Program, Fail>
    requires { length tokens.now ≤ 2 ^ 20 }
    ensures { IfOk result (λ program. sources_in program ≤ 2 ^ 20) }
{
    let statements = statements(alloc, tokens)?;
    program_of_statements(alloc, &statements)
}

// The program of a text.
fn program_of(alloc: Global, text: &str) -> Result<Program, Fail>
    ensures { IfOk result (λ program. sources_in program ≤ 2 ^ 20) }
{
    if text.len() > 1_048_576 {
        return Err(Fail::from("too long"));
    }
    let tokens = tokens(alloc, text.as_bytes())?;
    program_of_tokens(alloc, &tokens)
}

/// The circuit of the program of a text.
pub fn planned(alloc: Global, text: &str) -> Result<Circuit, Fail> {
    let program = program_of(alloc, text)?;
    let circuit = plan(alloc, &program)?;
    Ok(circuit)
}
