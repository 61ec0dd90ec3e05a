//! Tokens: that calls succeed with ample memory, and that the tokens are the intended ones.
use sq_token::{Token, TokenKind, tokens};
use std::alloc::Global;
use std::convert::AsStr;
use std::test::Fail;

fn text_of<T: AsStr>(item: &T) -> &str {
    item.as_str()
}

fn shown_token(alloc: Global, token: &Token) -> Result<String, Fail> {
    let start = token.start;
    let end = token.end;
    let shown = match &token.kind {
        TokenKind::Word(word) => format!(in alloc; "word {}", text_of(word))?,
        TokenKind::Name(name) => format!(in alloc; "name {}", text_of(name))?,
        TokenKind::Text(text) => format!(in alloc; "text {}", text_of(text))?,
        TokenKind::Number(number) => format!(in alloc; "number {number}")?,
        TokenKind::Symbol(symbol) => format!(in alloc; "{symbol:?}")?,
    };
    Ok(format!(in alloc; "[{start}-{end} {shown}]")?)
}

// The tokens of a text, or its fault.
fn shown(alloc: Global, text: &str) -> Result<String, Fail> {
    if text.len() > 1_048_576 {
        return Err(Fail::from("too long"));
    }
    match tokens(alloc, text.as_bytes()) {
        Err(fault) => Ok(format!(in alloc; "{fault:?}")?),
        Ok(list) => {
            let mut out = String::new(alloc);
            for token in &list {
                out.push_str(shown_token(alloc, token)?.as_str())?;
            }
            Ok(out)
        }
    }
}

#[test]
fn texts_have_these_tokens(rt: HostRuntime) -> Result<(), Fail> {
    let rows = [
        ("", ""),
        (" \t\r\n\u{c}-- no line behind", ""),
        ("Select _a1", "[0-6 word select][7-10 word _a1]"),
        ("\"\" \"A\"\"é\"", "[0-2 name ][3-10 name A\"é]"),
        ("''x'it''s'", "[0-2 text ][2-3 word x][3-10 text it's]"),
        ("0 007'x'", "[0-1 number 0][2-5 number 7][5-8 text x]"),
        ("9223372036854775808", "[0-19 number 9223372036854775808]"),
        (
            "(),;.*",
            "[0-1 LeftParen][1-2 RightParen][2-3 Comma][3-4 Semicolon][4-5 Dot][5-6 Star]",
        ),
        (
            "+-=<>!=",
            "[0-1 Plus][1-2 Minus][2-3 Equal][3-5 NotEqual][5-7 NotEqual]",
        ),
        (
            "< <=>>=",
            "[0-1 Less][2-4 LessEqual][4-5 Greater][5-7 GreaterEqual]",
        ),
        ("a--b\nc/*d/***/-", "[0-1 word a][5-6 word c][14-15 Minus]"),
    ];
    for (text, expected) in rows {
        let found = shown(rt.alloc(), text)?;
        assert_eq!(rt; found.as_str(), expected, "at {text}");
    }
    Ok(())
}

#[test]
fn texts_have_these_faults(rt: HostRuntime) -> Result<(), Fail> {
    let rows = [
        ("CREATE TABLE t (a INTEGER) #", "BadByte { at: 27 }"),
        ("CREATE VIEW v AS SELECT 'x", "OpenText { at: 24 }"),
        ("CREATE VIEW v AS SELECT \"x", "OpenName { at: 24 }"),
        ("/* x", "OpenComment { at: 0 }"),
        ("SELECT 9223372036854775809", "LongNumber { at: 7 }"),
        ("SELECT 1e5", "BadByte { at: 8 }"),
        ("'x''", "OpenText { at: 0 }"),
        ("/*/", "OpenComment { at: 0 }"),
        ("/* /* */ */", "BadByte { at: 10 }"),
        ("99999999999999999999a '", "LongNumber { at: 0 }"),
        ("1_", "BadByte { at: 1 }"),
        ("aé", "BadByte { at: 1 }"),
        ("!", "BadByte { at: 0 }"),
        ("\u{b}", "BadByte { at: 0 }"),
    ];
    for (text, expected) in rows {
        let found = shown(rt.alloc(), text)?;
        assert_eq!(rt; found.as_str(), expected, "at {text}");
    }
    Ok(())
}

#[test]
fn longest_text_is_read(rt: HostRuntime) -> Result<(), Fail> {
    let alloc = rt.alloc();
    let mut text = String::new(alloc);
    for _ in 0..65_536 {
        text.push_str("a1 <= 'it''s' , ")?;
    }
    let text = text.as_str();
    assert_eq!(rt; text.len(), 1_048_576);
    let list = tokens(alloc, text.as_bytes())?;
    assert_eq!(rt; list.len(), 262_144);
    Ok(())
}
