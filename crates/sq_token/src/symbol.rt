//! Symbols, and the bytes that spell them.
ghost use Rattle.std.specs.Prelude.{◌≡◌};
ghost use Rattle.sq_token.specs.Symbols.{symbol_of_byte, symbol_of_pair, symbol_of_two};

/// A symbol of the grammar.
#[derive(Clone, Copy, Debug, PartialEq, Eq)]
pub enum Symbol {
    LeftParen,
    RightParen,
    Comma,
    Semicolon,
    Dot,
    Star,
    Plus,
    Minus,
    Equal,
    /// Both `<>` and `!=`.
    NotEqual,
    Less,
    LessEqual,
    Greater,
    GreaterEqual,
}

/// The symbol that is spelled by this byte alone.
pub(crate) fn symbol_of_byte(byte: u8) -> Option<Symbol>
    ensures { result ≡ symbol_of_byte byte }
{
    match byte {
        b'(' => Some(Symbol::LeftParen),
        b')' => Some(Symbol::RightParen),
        b',' => Some(Symbol::Comma),
        b';' => Some(Symbol::Semicolon),
        b'.' => Some(Symbol::Dot),
        b'*' => Some(Symbol::Star),
        b'+' => Some(Symbol::Plus),
        b'-' => Some(Symbol::Minus),
        b'=' => Some(Symbol::Equal),
        b'<' => Some(Symbol::Less),
        b'>' => Some(Symbol::Greater),
        _ => None,
    }
}

/// The symbol that is spelled by these two bytes.
fn symbol_of_pair(first: u8, second: u8) -> Option<Symbol>
    ensures { result ≡ symbol_of_pair first second }
{
    match (first, second) {
        (b'<', b'>') | (b'!', b'=') => Some(Symbol::NotEqual),
        (b'<', b'=') => Some(Symbol::LessEqual),
        (b'>', b'=') => Some(Symbol::GreaterEqual),
        _ => None,
    }
}

/// The symbol that is spelled by the first two bytes of `text`.
pub(crate) fn symbol_of_two(text: &[u8]) -> Option<Symbol>
    ensures { result ≡ symbol_of_two text.now }
{
    match text {
        [first, second, ..] => symbol_of_pair(*first, *second),
        _ => None,
    }
}
