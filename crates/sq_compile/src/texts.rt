//! The program and the circuit of a text.
ghost use Rattle.std.specs.Str.{IsUtf8};
ghost use Rattle.std.specs.List.{AllByRecursion};
ghost use Rattle.std.specs.Prelude.{◌≡◌, ◌↔◌, IsTrue, ◌≤◌, ◌^◌, ℕ, List, length, IfOk, IfErr};
ghost use Rattle.sq_token.specs.declared.token.Token.{Token as Lexeme};
ghost use Rattle.sq_token.specs.Reading.{Tokens};
ghost use Rattle.sq_ast.specs.Spelling.{Spells};
ghost use Rattle.sq_ast.specs.Sources.{program_sources};
ghost use Rattle.sq_typed.specs.Checked.{Spelling};
ghost use Rattle.sq_typed.specs.Sources.{sources_in};
ghost use Rattle.sq_plan.specs.Program.{IsPlanOf};
ghost use Rattle.sq_compile.specs.Programs.{empty_verdict, longest_text, IsChecked, IsCircuitOf, IsProgramOf, RangeStop, StatementsStop, TextStops, TokensStop};

use crate::relations::{empty_tables, view_name};
use sq_ast::Statement;
use sq_check::{CheckFault, check};
use sq_circuit::Circuit;
use sq_parse::{ParseFault, statements};
use sq_plan::plan;
use sq_print::ProgramFault;
use sq_token::{LexFault, Token, tokens};
use sq_typed::Program;
use sq_value::NoMemory;
use sq_whole::{EvalFault, whole_eval};
use std::alloc::Global;

/// The most bytes that a program text may have.
pub const LONGEST_TEXT: usize = 1_048_576;

/// Why a text has no program.
#[derive(Debug, Drop)]
pub enum CompileFault {
    Fault(ProgramFault),
    Memory,
}

impl From<NoMemory> for CompileFault {
    ghost use Rattle.sq_compile.specs.declared.texts.CompileFault.TheVariants.{Memory};

    ghost from_gives = { λ _ stop. stop ≡ Memory };

    fn from(_: NoMemory) -> Self {
        CompileFault::Memory
    }
}

impl From<LexFault> for CompileFault {
    ghost use Rattle.sq_compile.specs.Programs.{lex_stop};

    ghost from_gives = { λ fault stop. stop ≡ lex_stop fault };

    fn from(fault: LexFault) -> Self {
        match fault {
            LexFault::Memory => CompileFault::Memory,
            other => CompileFault::Fault(ProgramFault::Lex(other)),
        }
    }
}

impl From<ParseFault> for CompileFault {
    ghost use Rattle.sq_compile.specs.Programs.{parse_stop};

    ghost from_gives = { λ fault stop. stop ≡ parse_stop fault };

    fn from(fault: ParseFault) -> Self {
        match fault {
            ParseFault::Memory => CompileFault::Memory,
            other => CompileFault::Fault(ProgramFault::Parse(other)),
        }
    }
}

impl From<CheckFault> for CompileFault {
    ghost use Rattle.sq_compile.specs.Programs.{check_stop};

    ghost from_gives = { λ fault stop. stop ≡ check_stop fault };

    fn from(fault: CheckFault) -> Self {
        match fault {
            CheckFault::Memory => CompileFault::Memory,
            CheckFault::Fault { number, kind } => {
                CompileFault::Fault(ProgramFault::Check { number, kind })
            }
        }
    }
}

/// The program of a text, with a circuit that stands for it; or the text's first fault. All bytes are the text.
///
/// A text has a fault if it has more than 1,048,576 bytes, or else is not UTF-8, or has a fault of its tokens, its grammar or its
/// statements, or means a program with a view that is out of range over tables without rows. `Memory` says that memory ran out.
pub fn compile(alloc: Global, text: &[u8]) -> Result<(Program, Circuit), CompileFault>
    ensures program { IfOk result (λ made. IsProgramOf text.now made.0) }
    ensures circuit { IfOk result (λ made. IsCircuitOf made.0 made.1) }
    ensures refused { IfErr result (TextStops text.now) }
{
    if text.len() > LONGEST_TEXT {
        return Err(CompileFault::Fault(ProgramFault::TextTooLong));
    }
    if !is_utf8(text) {
        return Err(CompileFault::Fault(ProgramFault::NotUtf8));
    }
    let tokens = tokens(alloc, text)?;
    compile_tokens(alloc, &tokens)
}

// The same for the tokens of a text in UTF-8 that is not too long.
fn compile_tokens(alloc: Global, tokens: &[Token]) -> Result<(Program, Circuit), CompileFault>
    requires short { length tokens.now ≤ longest_text }
    ensures program { IfOk result (λ made. (text : List ℕ) → length text ≤ longest_text → IsUtf8 text → Tokens text tokens.now → IsProgramOf text made.0) }
    ensures circuit { IfOk result (λ made. IsCircuitOf made.0 made.1) }
    ensures refused { IfErr result (TokensStop tokens.now) }
{
    let statements = statements(alloc, tokens)?;
    compile_statements(alloc, &statements)
}

// The same for statements, each of which is spelled by some tokens.
fn compile_statements(
    alloc: Global,
    statements: &[Statement],
) -> Result<(Program, Circuit), CompileFault>
    requires few { program_sources statements.now ≤ 2 ^ 20 }
    requires spelled { AllByRecursion Spelling statements.now }
    ensures program { IfOk result (λ made. (text : List ℕ) (tokens : List Lexeme) → length text ≤ longest_text → IsUtf8 text → Tokens text tokens
        → Spells tokens statements.now → IsProgramOf text made.0) }
    ensures circuit { IfOk result (λ made. IsCircuitOf made.0 made.1) }
    ensures refused { IfErr result (StatementsStop statements.now) }
{
    let program = check(alloc, statements)?;
    compile_program(alloc, program)
}

// A program with its circuit, or the first view that is out of range over tables without rows.
fn compile_program(alloc: Global, program: Program) -> Result<(Program, Circuit), CompileFault>
    requires few { sources_in program ≤ 2 ^ 20 }
    ensures program { IfOk result (λ made. IsChecked program made.0) }
    ensures circuit { IfOk result (λ made. IsCircuitOf made.0 made.1) }
    ensures refused { IfErr result (RangeStop program) }
{
    let circuit = plan(alloc, &program)?;
    match out_of_range(alloc, &program, &circuit)? {
        None => Ok((program, circuit)),
        Some(view) => {
            let view = view_name(alloc, program.catalog(), view)?;
            Err(CompileFault::Fault(ProgramFault::Range { view }))
        }
    }
}

// The first view of a program that is out of range over tables without rows, if there is one, by its circuit.
fn out_of_range(
    alloc: Global,
    program: &Program,
    circuit: &Circuit,
) -> Result<Option<u32>, NoMemory>
    requires { IsPlanOf program.now circuit.now }
    ensures { IfOk result (λ view. view ≡ empty_verdict program.now) }
{
    let tables = empty_tables(alloc, program.catalog())?;
    match whole_eval(alloc, circuit, &tables) {
        Ok(_) => Ok(None),
        Err(EvalFault::Range { view }) => Ok(Some(view)),
        Err(EvalFault::Memory) => Err(NoMemory),
    }
}

fn is_utf8(text: &[u8]) -> bool
    ensures { IsTrue result ↔ IsUtf8 text.now }
{
    std::str::from_utf8(text).is_ok()
}
