//! Programs whose numbers or rows pass a limit: which view is to blame, and what stands right below the limit.
use crate::answers::shows;
use std::test::Fail;

#[test]
fn a_sum_outside_bigint_names_its_view(rt: HostRuntime) -> Result<(), Fail> {
    shows(
        &rt,
        rt.alloc(),
        "CREATE TABLE t (a BIGINT); CREATE VIEW u AS SELECT a FROM t; CREATE VIEW v AS SELECT SUM(a) AS s FROM t",
        &[
            ("-", "- | null"),
            (
                "9223372036854775807",
                "9223372036854775807 | 9223372036854775807",
            ),
            ("9223372036854775807; 1", "range 1"),
            ("1", "1 | 1"),
        ],
    )
}

#[test]
fn views_of_views_multiply_copies_up_to_the_limit(rt: HostRuntime) -> Result<(), Fail> {
    shows(
        &rt,
        rt.alloc(),
        "CREATE TABLE t (a INT); CREATE LOCAL VIEW v1 AS SELECT x.a FROM t x, t y; CREATE LOCAL VIEW v2 AS SELECT x.a FROM v1 x, v1 y;
        CREATE LOCAL VIEW v3 AS SELECT x.a FROM v2 x, v2 y; CREATE LOCAL VIEW v4 AS SELECT x.a FROM v3 x, v3 y;
        CREATE LOCAL VIEW v5 AS SELECT x.a FROM v4 x, v4 y; CREATE VIEW w AS SELECT p.a FROM v5 p, v4 q, v3 r, v2 s, t u",
        &[(
            "1; 1",
            "1*4 | 1*16 | 1*256 | 1*65536 | 1*4294967296 | 1*2305843009213693952",
        )],
    )
}

#[test]
fn a_view_with_more_rows_than_the_limit_is_named(rt: HostRuntime) -> Result<(), Fail> {
    shows(
        &rt,
        rt.alloc(),
        "CREATE TABLE t (a INT); CREATE LOCAL VIEW v1 AS SELECT x.a FROM t x, t y; CREATE LOCAL VIEW v2 AS SELECT x.a FROM v1 x, v1 y;
        CREATE LOCAL VIEW v3 AS SELECT x.a FROM v2 x, v2 y; CREATE LOCAL VIEW v4 AS SELECT x.a FROM v3 x, v3 y;
        CREATE LOCAL VIEW v5 AS SELECT x.a FROM v4 x, v4 y; CREATE VIEW w AS SELECT p.a FROM v5 p, v4 q, v3 r, v2 s, t u, t z",
        &[("1", "1 | 1 | 1 | 1 | 1 | 1"), ("1; 1", "range 5")],
    )
}
