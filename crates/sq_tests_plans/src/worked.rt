//! Programs of one query or a few, with the rows of their views worked out by hand for some tables one after the other.
use crate::answers::shows;
use std::test::Fail;

#[test]
fn totals_over_no_rows_are_a_row(rt: HostRuntime) -> Result<(), Fail> {
    shows(
        &rt,
        rt.alloc(),
        "CREATE TABLE t (a INTEGER); CREATE VIEW v AS SELECT COUNT(*) AS c, SUM(a) AS s FROM t;",
        &[("-", "0 null"), ("5", "1 5")],
    )
}

#[test]
fn a_union_has_each_row_once_and_union_all_each_copy(rt: HostRuntime) -> Result<(), Fail> {
    shows(
        &rt,
        rt.alloc(),
        "CREATE TABLE t (a INT); CREATE TABLE u (a INT); CREATE VIEW v1 AS SELECT a FROM t UNION ALL SELECT a FROM u;
        CREATE VIEW v2 AS SELECT a FROM t UNION SELECT a FROM u",
        &[
            ("- | -", "- | -"),
            ("1; 1 | -", "1*2 | 1"),
            ("1 | -", "1 | 1"),
            ("1; 1 | 1; 2", "1*3; 2 | 1; 2"),
        ],
    )
}

#[test]
fn a_union_of_an_integer_and_a_bigint_holds_both(rt: HostRuntime) -> Result<(), Fail> {
    shows(
        &rt,
        rt.alloc(),
        "CREATE TABLE t (a INTEGER); CREATE TABLE u (b BIGINT); CREATE VIEW v AS SELECT a FROM t UNION SELECT b FROM u;
        CREATE VIEW w AS SELECT b FROM u UNION ALL SELECT a FROM t",
        &[(
            "1; 2; null | 2; 9223372036854775807",
            "null; 1; 2; 9223372036854775807 | null; 1; 2*2; 9223372036854775807",
        )],
    )
}

#[test]
fn a_join_of_a_table_with_itself_follows_its_rows(rt: HostRuntime) -> Result<(), Fail> {
    shows(
        &rt,
        rt.alloc(),
        "CREATE TABLE t (a INT, b INT); CREATE VIEW v AS SELECT x.a AS p, y.b AS q FROM t x JOIN t y ON x.b = y.a",
        &[("-", "-"), ("1 2; 2 3", "1 3"), ("2 3; 3 1", "2 1")],
    )
}

#[test]
fn a_join_has_no_row_if_one_side_has_none(rt: HostRuntime) -> Result<(), Fail> {
    shows(
        &rt,
        rt.alloc(),
        "CREATE TABLE l (k INT); CREATE TABLE r (k INT); CREATE VIEW v AS SELECT l.k FROM l JOIN r ON l.k = r.k",
        &[("- | 1", "-"), ("1 | -", "-"), ("1; 1 | 1; 2", "1*2")],
    )
}

#[test]
fn a_left_join_pads_rows_without_a_partner(rt: HostRuntime) -> Result<(), Fail> {
    shows(
        &rt,
        rt.alloc(),
        "CREATE TABLE l (k INT); CREATE TABLE r (k INT, n VARCHAR); CREATE VIEW v AS SELECT l.k, r.n FROM l LEFT JOIN r ON l.k = r.k",
        &[
            ("- | -", "-"),
            ("1; 1 | -", "1 null*2"),
            ("1; 1 | 1 x", "1 x*2"),
        ],
    )
}

#[test]
fn nulls_are_no_keys_and_yet_one_group(rt: HostRuntime) -> Result<(), Fail> {
    shows(
        &rt,
        rt.alloc(),
        "CREATE TABLE t (a INT); CREATE TABLE u (a INT); CREATE VIEW j AS SELECT t.a FROM t JOIN u ON t.a = u.a;
        CREATE VIEW g AS SELECT a, COUNT(*) AS c FROM t GROUP BY a; CREATE VIEW d AS SELECT DISTINCT a FROM t;
        CREATE VIEW i AS SELECT a FROM t INTERSECT SELECT a FROM u; CREATE VIEW e AS SELECT a FROM t EXCEPT SELECT a FROM u",
        &[
            ("- | -", "- | - | - | - | -"),
            ("null; null | null", "- | null 2 | null | null | -"),
            ("null; 1 | 1", "1 | null 1; 1 1 | null; 1 | 1 | null"),
        ],
    )
}

#[test]
fn groups_have_their_least_and_greatest_numbers(rt: HostRuntime) -> Result<(), Fail> {
    shows(
        &rt,
        rt.alloc(),
        "CREATE TABLE t (g INT NOT NULL, a INT); CREATE VIEW v AS SELECT g, MIN(a) AS lo, MAX(a) AS hi FROM t GROUP BY g",
        &[("1 3; 1 7", "1 3 7"), ("1 3", "1 3 3"), ("-", "-")],
    )
}

#[test]
fn where_drops_rows_that_on_pads(rt: HostRuntime) -> Result<(), Fail> {
    shows(
        &rt,
        rt.alloc(),
        "CREATE TABLE x (a INTEGER); CREATE TABLE y (b BIGINT, c INTEGER);
        CREATE VIEW v AS SELECT x.a, y.c FROM x, y WHERE x.a = y.b AND y.c > 1;
        CREATE VIEW l AS SELECT x.a, y.c FROM x LEFT JOIN y ON x.a = y.b WHERE y.c > 1;
        CREATE VIEW w AS SELECT x.a, y.c FROM x LEFT JOIN y ON x.a = y.b AND y.c > 1",
        &[("1; 2 | 1 1; 1 5", "1 5 | 1 5 | 1 5; 2 null")],
    )
}

#[test]
fn a_view_may_read_a_view_in_front_of_a_later_table(rt: HostRuntime) -> Result<(), Fail> {
    shows(
        &rt,
        rt.alloc(),
        "CREATE TABLE r (a BIGINT, b BIGINT); CREATE VIEW u AS SELECT a FROM r; CREATE TABLE s (c BIGINT, d BIGINT);
        CREATE VIEW v AS SELECT a FROM u EXCEPT SELECT c FROM s",
        &[("1 2; 3 2 | 3 1", "1; 3 | 1")],
    )
}

#[test]
fn a_query_in_from_is_planned_in_its_place(rt: HostRuntime) -> Result<(), Fail> {
    shows(
        &rt,
        rt.alloc(),
        "CREATE TABLE t (g INT, a INT); CREATE TABLE u (b INT);
        CREATE VIEW v AS SELECT q.g, q.s, u.b FROM (SELECT g, SUM(a) AS s FROM t GROUP BY g HAVING COUNT(*) > 1) q LEFT JOIN u ON q.s = u.b;
        CREATE VIEW w AS SELECT DISTINCT q.a + 1 AS n FROM t x CROSS JOIN (SELECT a FROM t EXCEPT SELECT b FROM u) q
          WHERE NOT (q.a IS NULL OR x.g <> 1)",
        &[
            ("- | -", "- | -"),
            (
                "1 2; 1 3; 2 7; 2 null; 3 9 | 5; 2",
                "1 5 5; 2 7 null | 4; 8; 10",
            ),
        ],
    )
}
