//! What the generator puts in the place of each mark: a mark is `$`, a letter, and a scope or `.` for the scope that it stands in.
//!
//! Each query has the columns a and b, which are numbers, and s, a text. The scopes are `1` for one source x, `2` for the sources x
//! and y, `g` for the groups by a and s of one source, and `h` for all its rows as one group.

/// The texts of which one takes the place of the mark with this letter. The first leads to an end soon.
pub fn choices(letter: u8, scope: u8) -> &'static [&'static str] {
    match letter {
        b'c' => numbers(scope),
        b't' => texts(scope),
        b'n' => &[
            "$c.",
            "$c.",
            "$k.",
            "$c. + $k.",
            "$c. - $c.",
            "-$c.",
            "$c. * 2",
            "($c. + $k.) * 3",
            "$c. * $c.",
            "$c. * $c. - 1",
        ],
        b'k' => &["1", "0", "2", "3", "17"],
        b'd' => &["$c. = $k.", "$e.", "$e.", "$e. AND $e.", "$e. OR $e."],
        b'e' => &[
            "$c. < $k.",
            "$n. <> $c.",
            "$n. >= $n.",
            "$t. = $t.",
            "$t. <= 'p'",
            "$c. IS NULL",
            "$t. IS NOT NULL",
            "NOT $c. = $k.",
            "NOT ($d.)",
            "($d.)",
        ],
        b'o' => &[
            "x.a = y.a",
            "x.a = y.b",
            "x.s = y.s",
            "x.b = y.b AND $d2",
            "x.a = y.a AND x.s <> y.s",
            "x.a = y.a AND x.b = y.b",
        ],
        b'i' => &["$n. AS a, $n. AS b, $t. AS s"],
        b'w' => &["", "", " WHERE $d."],
        _ => queries(letter),
    }
}

fn numbers(scope: u8) -> &'static [&'static str] {
    match scope {
        b'1' => &["a", "b", "x.a", "x.b"],
        b'2' => &["x.a", "y.a", "x.b", "y.b"],
        b'g' => &[
            "a",
            "COUNT(*)",
            "COUNT($n1)",
            "SUM($n1)",
            "MIN(b)",
            "MAX($n1)",
        ],
        _ => &["COUNT(*)", "COUNT($t1)", "SUM($n1)", "MIN($n1)", "MAX(b)"],
    }
}

fn texts(scope: u8) -> &'static [&'static str] {
    match scope {
        b'1' => &["s", "x.s", "'p'"],
        b'2' => &["x.s", "y.s", "'q'"],
        b'g' => &["s", "MIN(s)", "MAX(s)"],
        _ => &["MIN(s)", "MAX(s)", "'p'"],
    }
}

fn queries(letter: u8) -> &'static [&'static str] {
    match letter {
        b'f' => &["$r.", "$r.", "$r.", "($b.)", "($b. UNION ALL $b.)"],
        b'j' => &[
            "$m.",
            "$m.",
            "(SELECT DISTINCT a, b, s FROM $r.)",
            "(SELECT $ig FROM $r. x GROUP BY a, s)",
        ],
        b'b' => blocks(),
        _ => &[
            "$b.",
            "$b.",
            "$b.",
            "$b. UNION $b.",
            "$b. UNION ALL $b.",
            "$b. EXCEPT $b.",
            "$b. INTERSECT $b.",
            "(SELECT a, b, s FROM $r. x UNION ALL $b.) INTERSECT SELECT a, b, s FROM $r. x",
            "(SELECT a, b, s FROM $r. x UNION ALL SELECT a, b, s FROM $r. x) EXCEPT $b.",
            "($b. UNION ALL $b.) EXCEPT $b.",
        ],
    }
}

fn blocks() -> &'static [&'static str] {
    &[
        "SELECT a, b, s FROM $r. x",
        "SELECT $i1 FROM $f. x$w1",
        "SELECT DISTINCT a, b, s FROM $f. x$w1",
        "SELECT $i2 FROM $j. x, $r. y WHERE $o.",
        "SELECT $i2 FROM $f. x JOIN $j. y ON $o.$w2",
        "SELECT x.a, y.b, y.s FROM $f. x LEFT JOIN $j. y ON $o.$w2",
        "SELECT $i2 FROM $j. x LEFT JOIN $f. y ON $o.",
        "SELECT x.a, z.b, y.s FROM $j. x JOIN $m. y ON $o. LEFT JOIN $m. z ON y.b = z.b AND x.a = z.a",
        "SELECT x.a, y.b, z.s FROM $m. x LEFT JOIN $j. y ON $o. LEFT JOIN $m. z ON y.b = z.b",
        "SELECT z.a, y.b, z.s FROM $f. x LEFT JOIN $m. y ON $o. JOIN $m. z ON x.a = z.a",
        "SELECT $ig FROM $f. x$w1 GROUP BY a, s",
        "SELECT SUM(a) AS a, COUNT(a) AS b, s FROM $f. x GROUP BY s",
        "SELECT $ig FROM $f. x GROUP BY a, s HAVING $dg",
        "SELECT $nh AS a, $nh AS b, s FROM $f. x$w1 GROUP BY s",
        "SELECT x.b AS a, $nh AS b, $th AS s FROM $f. x GROUP BY b HAVING $dh",
        "SELECT $ih FROM $f. x$w1",
        "SELECT $ih FROM $f. x HAVING $dh",
        "SELECT y.* FROM $m. x CROSS JOIN (SELECT $i1 FROM $m. x) y",
        "SELECT * FROM ($b.) x",
    ]
}

/// A table's columns, by the number of its form.
pub fn columns_of(form: u64) -> &'static str {
    match form {
        0 => " (a BIGINT, b INT, s TEXT)",
        1 => " (a BIGINT NOT NULL, b BIGINT, s VARCHAR)",
        2 => " (s TEXT NOT NULL, a INT, b BIGINT)",
        _ => " (b INTEGER, c BIGINT, a BIGINT, s VARCHAR)",
    }
}

/// The name of a table, by its number.
pub fn table_name(number: u64) -> &'static str {
    match number {
        0 => "item",
        1 => "orders",
        _ => "stock",
    }
}

/// The name of a view, by its number.
pub fn view_name(number: u64) -> &'static str {
    match number {
        0 => "first",
        1 => "second",
        2 => "third",
        _ => "fourth",
    }
}

/// Values of the columns a, b and s, as JSON.
pub fn values(column: u8) -> &'static [&'static str] {
    match column {
        b'a' => &[
            "0",
            "1",
            "2",
            "1",
            "2",
            "0",
            "-1",
            "1",
            "null",
            "4611686018427387904",
        ],
        b'b' => &["0", "1", "2", "null"],
        _ => &["\"p\"", "\"q\"", "null", "\"p\""],
    }
}

/// Lines that no table takes.
pub fn bad_lines() -> &'static [&'static str] {
    &[
        "{\"table\":\"none\",\"insert\":{}}",
        "no JSON",
        "{\"table\":\"item\",\"insert\":{\"a\":\"x\"}}",
        "{\"table\":\"item\",\"insert\":{\"a\":9223372036854775808,\"b\":1,\"s\":\"p\"}}",
        "{\"table\":\"item\"}",
    ]
}
