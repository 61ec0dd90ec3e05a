//! Programs whose circuits have every kind of node, over drawn tables, shards and orders.
use crate::held::check_program;
use std::test::Fail;

#[test]
fn joins_and_left_joins_are_held(rt: HostRuntime) -> Result<(), Fail> {
    check_program(
        &rt,
        rt.alloc(),
        "CREATE TABLE t (a INT, b VARCHAR); CREATE TABLE u (a INT, c BIGINT);
        CREATE VIEW j AS SELECT t.a, u.c FROM t JOIN u ON t.a = u.a WHERE u.c > 1;
        CREATE VIEW l AS SELECT t.b, u.c FROM t LEFT JOIN u ON t.a = u.a;
        CREATE VIEW s AS SELECT x.a AS p, y.b AS q FROM t x JOIN t y ON x.b = y.b",
    )
}

#[test]
fn groups_and_totals_are_held(rt: HostRuntime) -> Result<(), Fail> {
    check_program(
        &rt,
        rt.alloc(),
        "CREATE TABLE t (g VARCHAR, a INT);
        CREATE VIEW n AS SELECT COUNT(*) AS c, SUM(a) AS s, MIN(a) AS lo FROM t;
        CREATE VIEW g AS SELECT g, COUNT(a) AS c, MAX(a) AS hi FROM t GROUP BY g;
        CREATE VIEW h AS SELECT g, SUM(a) AS s FROM t GROUP BY g HAVING SUM(a) > 3",
    )
}

#[test]
fn sets_are_held(rt: HostRuntime) -> Result<(), Fail> {
    check_program(
        &rt,
        rt.alloc(),
        "CREATE TABLE t (a INT); CREATE TABLE u (a INT);
        CREATE VIEW a AS SELECT a FROM t UNION ALL SELECT a FROM u;
        CREATE VIEW b AS SELECT a FROM t UNION SELECT a FROM u;
        CREATE VIEW i AS SELECT a FROM t INTERSECT SELECT a FROM u;
        CREATE VIEW e AS SELECT a FROM t EXCEPT SELECT a FROM u;
        CREATE VIEW d AS SELECT DISTINCT a + 1 AS b FROM t",
    )
}

#[test]
fn views_of_views_are_held(rt: HostRuntime) -> Result<(), Fail> {
    check_program(
        &rt,
        rt.alloc(),
        "CREATE TABLE t (a INT, b INT); CREATE TABLE u (a INT);
        CREATE VIEW g AS SELECT a, SUM(b) AS s FROM t GROUP BY a;
        CREATE VIEW j AS SELECT g.a, g.s FROM g LEFT JOIN u ON g.a = u.a WHERE u.a IS NULL;
        CREATE VIEW n AS SELECT COUNT(*) AS c, MAX(s) AS hi FROM j",
    )
}

#[test]
fn a_view_out_of_range_is_named(rt: HostRuntime) -> Result<(), Fail> {
    check_program(
        &rt,
        rt.alloc(),
        "CREATE TABLE t (a INT); CREATE VIEW v AS SELECT a FROM t;
        CREATE VIEW w AS SELECT SUM(a * 9223372036854775807) AS s FROM t;
        CREATE VIEW x AS SELECT COUNT(*) AS c FROM w",
    )
}
