//! Statements: that calls succeed with ample memory, and that the statements are the intended ones.
use sq_ast::{Body, Statement};
use sq_parse::statements;
use sq_token::tokens;
use std::alloc::Global;
use std::test::Fail;

fn shown_statement(alloc: Global, statement: &Statement) -> Result<String, Fail> {
    let number = statement.number;
    match &statement.body {
        Body::Table { .. } => Ok(format!(in alloc; "[{number} table]")?),
        Body::View { .. } => Ok(format!(in alloc; "[{number} view]")?),
    }
}

// The numbers of the statements of a text and what they create, or its fault.
fn shown(alloc: Global, text: &str) -> Result<String, Fail> {
    if text.len() > 1_048_576 {
        return Err(Fail::from("too long"));
    }
    let list = tokens(alloc, text.as_bytes())?;
    match statements(alloc, list.as_slice()) {
        Err(fault) => Ok(format!(in alloc; "{fault:?}")?),
        Ok(found) => {
            let mut out = String::new(alloc);
            for statement in &found {
                out.push_str(shown_statement(alloc, statement)?.as_str())?;
            }
            Ok(out)
        }
    }
}

// A view whose one item stands in so many parentheses, behind an empty statement.
fn nested(alloc: Global, levels: usize) -> Result<String, Fail> {
    let mut text = String::from_str(alloc, "; CREATE VIEW v AS SELECT ")?;
    for _ in 0..levels {
        text.push('(')?;
    }
    text.push('a')?;
    for _ in 0..levels {
        text.push(')')?;
    }
    text.push_str(" FROM t")?;
    Ok(text)
}

#[test]
fn texts_have_these_statements(rt: HostRuntime) -> Result<(), Fail> {
    let rows = [
        ("", ""),
        (" ; -- none\n;", ""),
        (
            ";CREATE TABLE t (a INT, \"order\" TEXT NOT NULL);;create local view V as select * from T;",
            "[2 table][4 view]",
        ),
        (
            "CREATE VIEW v AS SELECT a - b - c x, COUNT(*) FROM t LEFT JOIN u ON ((a) < 1 OR b IS NOT NULL)",
            "[1 view]",
        ),
        (
            "CREATE VIEW v AS (SELECT a FROM t) UNION SELECT b FROM (SELECT b FROM u) w INTERSECT SELECT c FROM t",
            "[1 view]",
        ),
        (
            "CREATE VIEW v AS SELECT a FROM t WHERE ((a) + 1 > 2 AND NOT ((b) IS NULL))",
            "[1 view]",
        ),
        (
            "CREATE VIEW v AS SELECT a FROM t WHERE ((a > 1) + 2)",
            "NotGrammar { number: 1 }",
        ),
        (
            "CREATE TABLE t (a INT); CREATE VIEW v AS SELECT t.a FROM t RIGHT JOIN t y ON t.a = y.a",
            "NotGrammar { number: 2 }",
        ),
        ("CREATE TABLE t (a INT,)", "NotGrammar { number: 1 }"),
        (";;CREATE TABLE order (a INT)", "NotGrammar { number: 3 }"),
        (
            "CREATE VIEW v AS SELECT a FROM t LEFT JOIN u",
            "NotGrammar { number: 1 }",
        ),
        (
            "CREATE VIEW v AS SELECT a FROM t WHERE a",
            "NotGrammar { number: 1 }",
        ),
        (
            "CREATE VIEW v AS SELECT SUM(*) FROM t",
            "NotGrammar { number: 1 }",
        ),
        (
            "CREATE TABLE t (a INT) CREATE TABLE u (a INT)",
            "NotGrammar { number: 1 }",
        ),
    ];
    for (text, expected) in rows {
        let found = shown(rt.alloc(), text)?;
        assert_eq!(rt; found.as_str(), expected, "at {text}");
    }
    Ok(())
}

#[test]
fn parentheses_nest_so_deep(rt: HostRuntime) -> Result<(), Fail> {
    let rows = [(64, "[2 view]"), (65, "TooDeep { number: 2 }")];
    for (levels, expected) in rows {
        let text = nested(rt.alloc(), levels)?;
        let found = shown(rt.alloc(), text.as_str())?;
        assert_eq!(rt; found.as_str(), expected);
    }
    Ok(())
}
