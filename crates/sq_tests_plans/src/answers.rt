//! What the views of a program have over some tables, as a text.
ghost use Rattle.std.specs.Prelude.{◌≡◌, ◌≤◌, ◌^◌, IfOk, length};
ghost use Rattle.std.specs.List.{AllByRecursion};
ghost use Rattle.sq_ast.specs.Sources.{program_sources};
ghost use Rattle.sq_typed.specs.Checked.{Spelling};
ghost use Rattle.sq_typed.specs.Sources.{sources_in};

use crate::texts::{put_rows, tables_of};
use sq_ast::Statement;
use sq_check::check;
use sq_circuit::{Circuit, Node};
use sq_good::are_good;
use sq_parse::statements;
use sq_plan::plan;
use sq_token::{Token, tokens};
use sq_typed::Program;
use sq_whole::{EvalFault, whole_eval};
use sq_zset::ZSet;
use std::alloc::Global;
use std::process::Abort;
use std::test::Fail;

// The program of statements, each of which is spelled by some tokens.
fn program_of_statements(alloc: Global, statements: &[Statement]) -> Result<Program, Fail>
    requires { AllByRecursion Spelling statements.now }
    ensures { IfOk result (λ program. sources_in program ≡ program_sources statements.now) }
{
    let program = check(alloc, statements)?;
    Ok(program)
}

// The program that these tokens spell.
fn program_of_tokens(alloc: Global, tokens: &[Token]) -> Result<Program, Fail>
    requires { length tokens.now ≤ 2 ^ 20 }
    ensures { IfOk result (λ program. sources_in program ≤ 2 ^ 20) }
{
    let statements = statements(alloc, tokens)?;
    program_of_statements(alloc, &statements)
}

// The program of a text.
fn program_of(alloc: Global, text: &str) -> Result<Program, Fail>
    ensures { IfOk result (λ program. sources_in program ≤ 2 ^ 20) }
{
    if text.len() > 1_048_576 {
        return Err(Fail::from("too long"));
    }
    let tokens = tokens(alloc, text.as_bytes())?;
    program_of_tokens(alloc, &tokens)
}

fn planned(alloc: Global, text: &str) -> Result<Circuit, Fail> {
    let program = program_of(alloc, text)?;
    let circuit = plan(alloc, &program)?;
    Ok(circuit)
}

// The rows of the view nodes, in order, with bars between them.
fn views_text(alloc: Global, circuit: &Circuit, values: &[ZSet]) -> Result<String, Fail> {
    let mut out = String::new(alloc);
    for i in 0..values.len().min(circuit.len() as usize) {
        if let Node::View { view, .. } = circuit.node(i as u32) {
            if *view > 0 {
                out.push_str(" | ")?;
            }
            put_rows(alloc, &values[i], &mut out)?;
        }
    }
    Ok(out)
}

// What the views have over these tables, or which of them is out of range.
fn answer_of(alloc: Global, circuit: &Circuit, tables: &[ZSet]) -> Result<String, Fail> {
    if !are_good(circuit, tables) {
        return Err(Fail::from("no tables of the program"));
    }
    match whole_eval(alloc, circuit, tables) {
        Ok(values) => views_text(alloc, circuit, &values),
        Err(EvalFault::Range { view }) => Ok(format!(in alloc; "range {view}")?),
        Err(EvalFault::Memory) => Err(Fail::from("memory")),
    }
}

fn answer(alloc: Global, circuit: &Circuit, tables: &str) -> Result<String, Fail> {
    let tables = tables_of(alloc, tables)?;
    answer_of(alloc, circuit, &tables)
}

/// The views of the program have these rows over these tables, for each pair of tables and views.
pub fn shows(
    rt: &impl Abort,
    alloc: Global,
    program: &str,
    states: &[(&str, &str)],
) -> Result<(), Fail> {
    let circuit = planned(alloc, program)?;
    for state in states {
        let found = answer(alloc, &circuit, state.0)?;
        assert_eq!(rt; found.as_str(), state.1, "over {}", state.0);
    }
    Ok(())
}
