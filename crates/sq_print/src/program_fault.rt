//! Why a program is refused.
use sq_parse::ParseFault;
use sq_token::LexFault;
use sq_typed::CheckKind;
use sq_value::Str;

/// The first fault of a program text. It holds no `Memory`.
#[derive(Debug, Drop)]
pub enum ProgramFault {
    /// More than 1,048,576 bytes stand before the end line, or come without one.
    TextTooLong,
    /// The input has no end line.
    NoEnd,
    /// The text is not UTF-8.
    NotUtf8,
    /// The text has no tokens.
    Lex(LexFault),
    /// The tokens of the text spell no statements.
    Parse(ParseFault),
    /// A statement has a fault: the first that has one, with its number and the first kind of fault that it has.
    Check { number: u32, kind: CheckKind },
    /// The view of this name is the first that is out of range over empty tables.
    Range { view: Str },
}
