//! Inputs that were worked out by hand.

/// Inputs of whole runs.
pub const RUNS: [&str; 13] = [
    "CREATE TABLE t (a BIGINT);
CREATE VIEW v AS SELECT a FROM t WHERE a * a > 9223372036854775807;
---
{\"table\":\"t\",\"insert\":{\"a\":3037000500}}
{\"commit\":true}
",
    "CREATE TABLE t (a BIGINT);
CREATE LOCAL VIEW hidden AS SELECT a + 1 AS b FROM t;
CREATE VIEW \"a \"\"\" AS SELECT b AS \"B
\" FROM hidden;
CREATE VIEW w AS SELECT b * 4 AS c FROM hidden;
---
{\"table\":\"t\",\"insert\":{\"a\":1}}
{\"commit\":true}
{\"table\":\"t\",\"insert\":{\"a\":9223372036854775807}}
{\"commit\":true}
{\"table\":\"t\",\"insert\":{\"a\":4611686018427387904}}
{\"commit\":true}
",
    "CREATE TABLE t (a INT, b INT);
CREATE VIEW v AS SELECT x.a AS p, y.b AS q FROM t x JOIN t y ON x.b = y.a;
---
{\"table\":\"t\",\"insert\":{\"a\":1,\"b\":2}}
{\"table\":\"t\",\"insert\":{\"a\":2,\"b\":3}}
{\"commit\":true}
{\"table\":\"t\",\"delete\":{\"a\":1,\"b\":2}}
{\"table\":\"t\",\"insert\":{\"a\":3,\"b\":1}}
{\"commit\":true}
",
    "CREATE TABLE l (k INT); CREATE TABLE r (k INT, n VARCHAR);
CREATE VIEW v AS SELECT l.k, r.n FROM l LEFT JOIN r ON l.k = r.k;
---
{\"table\":\"l\",\"insert\":{\"k\":1}}
{\"table\":\"l\",\"insert\":{\"k\":1}}
{\"commit\":true}
{\"table\":\"r\",\"insert\":{\"k\":1,\"n\":\"x\"}}
{\"commit\":true}
{\"table\":\"r\",\"delete\":{\"k\":1,\"n\":\"x\"}}
{\"commit\":true}
",
    "CREATE TABLE t (a BIGINT);
CREATE VIEW v AS SELECT SUM(a) AS s FROM t;
---
{\"table\":\"t\",\"insert\":{\"a\":9223372036854775807}}
{\"commit\":true}
{\"table\":\"t\",\"insert\":{\"a\":1}}
{\"commit\":true}
{\"table\":\"t\",\"delete\":{\"a\":9223372036854775807}}
{\"commit\":true}
{\"table\":\"t\",\"insert\":{\"a\":1}}
{\"commit\":true}
",
    "CREATE TABLE t (a INTEGER);
CREATE VIEW v AS SELECT COUNT(*) AS c, SUM(a) AS s FROM t;
---
{\"table\":\"t\",\"insert\":{\"a\":5}}
{\"commit\":true}
",
    "CREATE TABLE x (a INTEGER); CREATE TABLE y (b BIGINT, c INTEGER);
CREATE VIEW v AS SELECT x.a, y.c FROM x, y WHERE x.a = y.b AND y.c > 1;
CREATE VIEW l AS SELECT x.a, y.c FROM x LEFT JOIN y ON x.a = y.b WHERE y.c > 1;
CREATE VIEW w AS SELECT x.a, y.c FROM x LEFT JOIN y ON x.a = y.b AND y.c > 1;
---
{\"table\":\"x\",\"insert\":{\"a\":1}}
{\"table\":\"x\",\"insert\":{\"a\":2}}
{\"table\":\"y\",\"insert\":{\"b\":1,\"c\":1}}
{\"table\":\"y\",\"insert\":{\"b\":1,\"c\":5}}
{\"commit\":true}
",
    "CREATE TABLE t (a INT); CREATE TABLE u (a INT);
CREATE VIEW j AS SELECT t.a FROM t JOIN u ON t.a = u.a;
CREATE VIEW g AS SELECT a, COUNT(*) AS c FROM t GROUP BY a;
CREATE VIEW d AS SELECT DISTINCT a FROM t;
CREATE VIEW i AS SELECT a FROM t INTERSECT SELECT a FROM u;
CREATE VIEW e AS SELECT a FROM t EXCEPT SELECT a FROM u;
---
{\"table\":\"t\",\"insert\":{}}
{\"table\":\"t\",\"insert\":{\"a\":null}}
{\"table\":\"u\",\"insert\":{\"a\":null}}
{\"commit\":true}
",
    "CREATE TABLE t (a INTEGER);
CREATE VIEW v AS SELECT * FROM t;
---
{\"table\":\"t\",\"insert\":{\"a\":7}}
{\"table\":\"t\",\"insert\":{\"a\":-3}}
{\"table\":\"t\",\"insert\":{\"a\":7}}
{\"table\":\"t\",\"insert\":{}}
{\"commit\":true}
{\"table\":\"t\",\"delete\":{\"a\":7}}
{\"commit\":true}",
    "CREATE TABLE t (a INT); CREATE TABLE u (a INT);
CREATE VIEW v1 AS SELECT a FROM t UNION ALL SELECT a FROM u;
CREATE VIEW v2 AS SELECT a FROM t UNION SELECT a FROM u;
---
{\"table\":\"t\",\"insert\":{\"a\":1}}
{\"table\":\"t\",\"insert\":{\"a\":1}}
{\"commit\":true}
{\"table\":\"t\",\"delete\":{\"a\":1}}
{\"commit\":true}
{\"table\":\"t\",\"insert\":{\"a\":1}}
{\"commit\":true}
",
    "CREATE TABLE t (g INT NOT NULL, a INT);
CREATE VIEW v AS SELECT g, MIN(a) AS lo, MAX(a) AS hi FROM t GROUP BY g;
---
{\"table\":\"t\",\"insert\":{\"g\":1,\"a\":3}}
{\"table\":\"t\",\"insert\":{\"g\":1,\"a\":7}}
{\"commit\":true}
{\"table\":\"t\",\"delete\":{\"g\":1,\"a\":7}}
{\"commit\":true}
{\"table\":\"t\",\"delete\":{\"g\":1,\"a\":3}}
{\"commit\":true}
",
    "CREATE TABLE t (a INTEGER);
CREATE VIEW v AS SELECT * FROM t;
---
{\"table\":\"t\",\"ins",
    "CREATE TABLE t (a INTEGER);
CREATE VIEW v AS SELECT * FROM t;
---
{\"table\":\"t\",\"delete\":{\"a\":1}}
{\"table\":\"t\",\"insert\":{\"a\":1}}
{\"commit\":true}
{\"table\":\"t\",\"insert\":{\"a\":2}}
{\"commit\":true}
",
];

/// The examples.
pub const EXAMPLES: [&str; 3] = [
    "CREATE TABLE customers (id INTEGER NOT NULL, name VARCHAR NOT NULL);
CREATE TABLE orders (id INTEGER NOT NULL, customer INTEGER NOT NULL);
CREATE TABLE items (order_id INTEGER NOT NULL, price BIGINT NOT NULL, pieces INTEGER NOT NULL);
CREATE VIEW revenue AS SELECT c.id, c.name, SUM(i.price * i.pieces) AS total
  FROM customers c JOIN orders o ON c.id = o.customer JOIN items i ON i.order_id = o.id
  GROUP BY c.id, c.name;
CREATE VIEW large AS SELECT name, MAX(total) AS best FROM revenue
  GROUP BY name HAVING MAX(total) >= 100;
CREATE VIEW idle AS SELECT c.name FROM customers c LEFT JOIN orders o ON c.id = o.customer
  WHERE o.id IS NULL;
---
{\"table\":\"customers\",\"insert\":{\"id\":1,\"name\":\"Ana\"}}
{\"table\":\"customers\",\"insert\":{\"id\":2,\"name\":\"Bo\"}}
{\"commit\":true}
{\"table\":\"orders\",\"insert\":{\"id\":10,\"customer\":1}}
{\"table\":\"items\",\"insert\":{\"order_id\":10,\"price\":30,\"pieces\":2}}
{\"commit\":true}
{\"table\":\"items\",\"insert\":{\"order_id\":10,\"price\":25,\"pieces\":2}}
{\"commit\":true}
{\"table\":\"orders\",\"insert\":{\"id\":11,\"customer\":2}}
{\"table\":\"items\",\"insert\":{\"order_id\":11,\"price\":7,\"pieces\":1}}
{\"table\":\"items\",\"delete\":{\"order_id\":10,\"price\":30,\"pieces\":2}}
{\"commit\":true}
{\"table\":\"orders\",\"delete\":{\"id\":11,\"customer\":2}}
{\"commit\":true}
",
    "-- An alert stands for a room whose mean of at least two readings is above 80, and goes when it cools down.
CREATE TABLE readings (room VARCHAR NOT NULL, at INTEGER NOT NULL, heat INTEGER);
CREATE LOCAL VIEW rooms AS
  SELECT room, COUNT(heat) AS n, SUM(heat) AS total, MAX(heat) AS peak FROM readings GROUP BY room;
CREATE VIEW alerts AS SELECT room, peak FROM rooms WHERE n >= 2 AND total > 80 * n;
CREATE VIEW loud AS SELECT room, COUNT(*) AS n FROM readings WHERE heat > 90 GROUP BY room HAVING COUNT(*) > 1;
---
{\"table\":\"readings\",\"insert\":{\"room\":\"north\",\"at\":1,\"heat\":95}}
{\"table\":\"readings\",\"insert\":{\"room\":\"south\",\"at\":1,\"heat\":70}}
{\"table\":\"readings\",\"insert\":{\"room\":\"north\",\"at\":1}}
{\"commit\":true}
{\"table\":\"readings\",\"insert\":{\"room\":\"north\",\"at\":2,\"heat\":91}}
{\"table\":\"readings\",\"insert\":{\"room\":\"south\",\"at\":2,\"heat\":90}}
{\"commit\":true}
{\"table\":\"readings\",\"insert\":{\"room\":\"north\",\"at\":3,\"heat\":20}}
{\"table\":\"readings\",\"insert\":{\"room\":\"south\",\"at\":3,\"heat\":99}}
{\"commit\":true}
{\"table\":\"readings\",\"delete\":{\"room\":\"north\",\"at\":1,\"heat\":95}}
{\"table\":\"readings\",\"delete\":{\"room\":\"north\",\"at\":9,\"heat\":1}}
{\"commit\":true}
{\"table\":\"readings\",\"delete\":{\"room\":\"north\",\"at\":1,\"heat\":95}}
{\"commit\":true}
",
    "-- Two books of payments, and what stands in one of them alone.
CREATE TABLE ledger (account INTEGER NOT NULL, amount BIGINT NOT NULL);
CREATE TABLE bank (account INTEGER NOT NULL, amount BIGINT NOT NULL);
CREATE VIEW missing AS SELECT account, amount FROM ledger EXCEPT SELECT account, amount FROM bank;
CREATE VIEW unexpected AS SELECT account, amount FROM bank EXCEPT SELECT account, amount FROM ledger;
CREATE VIEW agreed AS SELECT account, amount FROM ledger INTERSECT SELECT account, amount FROM bank;
CREATE VIEW balance AS
  SELECT l.total AS ledger, b.total AS bank, l.total - b.total AS open
  FROM (SELECT SUM(amount) AS total FROM ledger) l, (SELECT SUM(amount) AS total FROM bank) b;
---
{\"table\":\"ledger\",\"insert\":{\"account\":1,\"amount\":250}}
{\"table\":\"ledger\",\"insert\":{\"account\":2,\"amount\":-40}}
{\"table\":\"ledger\",\"insert\":{\"account\":2,\"amount\":-40}}
{\"commit\":true}
{\"table\":\"bank\",\"insert\":{\"account\":1,\"amount\":250}}
{\"table\":\"bank\",\"insert\":{\"account\":2,\"amount\":-40}}
{\"table\":\"bank\",\"insert\":{\"account\":3,\"amount\":9}}
{\"commit\":true}
{\"table\":\"ledger\",\"delete\":{\"account\":2,\"amount\":-40}}
{\"commit\":true}
{\"table\":\"bank\",\"delete\":{\"account\":3,\"amount\":9}}
{\"commit\":true}
",
];

/// Programs of one query or a few, whose tables come and go.
pub const PLANS: [&str; 11] = [
    "CREATE TABLE t (a INTEGER);
CREATE VIEW v AS SELECT COUNT(*) AS c, SUM(a) AS s FROM t;
---
{\"commit\":true}
{\"table\":\"t\",\"insert\":{\"a\":5}}
{\"commit\":true}
",
    "CREATE TABLE t (a INT);
CREATE TABLE u (a INT);
CREATE VIEW v1 AS SELECT a FROM t UNION ALL SELECT a FROM u;
CREATE VIEW v2 AS SELECT a FROM t UNION SELECT a FROM u;
---
{\"commit\":true}
{\"table\":\"t\",\"insert\":{\"a\":1}}
{\"table\":\"t\",\"insert\":{\"a\":1}}
{\"commit\":true}
{\"table\":\"t\",\"delete\":{\"a\":1}}
{\"commit\":true}
{\"table\":\"t\",\"insert\":{\"a\":1}}
{\"table\":\"u\",\"insert\":{\"a\":1}}
{\"table\":\"u\",\"insert\":{\"a\":2}}
{\"commit\":true}
",
    "CREATE TABLE t (a INTEGER);
CREATE TABLE u (b BIGINT);
CREATE VIEW v AS SELECT a FROM t UNION SELECT b FROM u;
CREATE VIEW w AS SELECT b FROM u UNION ALL SELECT a FROM t;
---
{\"table\":\"t\",\"insert\":{\"a\":1}}
{\"table\":\"t\",\"insert\":{\"a\":2}}
{\"table\":\"t\",\"insert\":{}}
{\"table\":\"u\",\"insert\":{\"b\":2}}
{\"table\":\"u\",\"insert\":{\"b\":9223372036854775807}}
{\"commit\":true}
",
    "CREATE TABLE t (a INT, b INT);
CREATE VIEW v AS SELECT x.a AS p, y.b AS q FROM t x JOIN t y ON x.b = y.a;
---
{\"commit\":true}
{\"table\":\"t\",\"insert\":{\"a\":1,\"b\":2}}
{\"table\":\"t\",\"insert\":{\"a\":2,\"b\":3}}
{\"commit\":true}
{\"table\":\"t\",\"insert\":{\"a\":3,\"b\":1}}
{\"table\":\"t\",\"delete\":{\"a\":1,\"b\":2}}
{\"commit\":true}
",
    "CREATE TABLE l (k INT);
CREATE TABLE r (k INT);
CREATE VIEW v AS SELECT l.k FROM l JOIN r ON l.k = r.k;
---
{\"table\":\"r\",\"insert\":{\"k\":1}}
{\"commit\":true}
{\"table\":\"l\",\"insert\":{\"k\":1}}
{\"table\":\"r\",\"delete\":{\"k\":1}}
{\"commit\":true}
{\"table\":\"l\",\"insert\":{\"k\":1}}
{\"table\":\"r\",\"insert\":{\"k\":1}}
{\"table\":\"r\",\"insert\":{\"k\":2}}
{\"commit\":true}
",
    "CREATE TABLE l (k INT);
CREATE TABLE r (k INT, n VARCHAR);
CREATE VIEW v AS SELECT l.k, r.n FROM l LEFT JOIN r ON l.k = r.k;
---
{\"commit\":true}
{\"table\":\"l\",\"insert\":{\"k\":1}}
{\"table\":\"l\",\"insert\":{\"k\":1}}
{\"commit\":true}
{\"table\":\"r\",\"insert\":{\"k\":1,\"n\":\"x\"}}
{\"commit\":true}
",
    "CREATE TABLE t (a INT);
CREATE TABLE u (a INT);
CREATE VIEW j AS SELECT t.a FROM t JOIN u ON t.a = u.a;
CREATE VIEW g AS SELECT a, COUNT(*) AS c FROM t GROUP BY a;
CREATE VIEW d AS SELECT DISTINCT a FROM t;
CREATE VIEW i AS SELECT a FROM t INTERSECT SELECT a FROM u;
CREATE VIEW e AS SELECT a FROM t EXCEPT SELECT a FROM u;
---
{\"commit\":true}
{\"table\":\"t\",\"insert\":{}}
{\"table\":\"t\",\"insert\":{}}
{\"table\":\"u\",\"insert\":{}}
{\"commit\":true}
{\"table\":\"t\",\"insert\":{\"a\":1}}
{\"table\":\"t\",\"delete\":{}}
{\"table\":\"u\",\"insert\":{\"a\":1}}
{\"table\":\"u\",\"delete\":{}}
{\"commit\":true}
",
    "CREATE TABLE t (g INT NOT NULL, a INT);
CREATE VIEW v AS SELECT g, MIN(a) AS lo, MAX(a) AS hi FROM t GROUP BY g;
---
{\"table\":\"t\",\"insert\":{\"g\":1,\"a\":3}}
{\"table\":\"t\",\"insert\":{\"g\":1,\"a\":7}}
{\"commit\":true}
{\"table\":\"t\",\"delete\":{\"g\":1,\"a\":7}}
{\"commit\":true}
{\"table\":\"t\",\"delete\":{\"g\":1,\"a\":3}}
{\"commit\":true}
",
    "CREATE TABLE x (a INTEGER);
CREATE TABLE y (b BIGINT, c INTEGER);
CREATE VIEW v AS SELECT x.a, y.c FROM x, y WHERE x.a = y.b AND y.c > 1;
CREATE VIEW l AS SELECT x.a, y.c FROM x LEFT JOIN y ON x.a = y.b WHERE y.c > 1;
CREATE VIEW w AS SELECT x.a, y.c FROM x LEFT JOIN y ON x.a = y.b AND y.c > 1;
---
{\"table\":\"x\",\"insert\":{\"a\":1}}
{\"table\":\"x\",\"insert\":{\"a\":2}}
{\"table\":\"y\",\"insert\":{\"b\":1,\"c\":1}}
{\"table\":\"y\",\"insert\":{\"b\":1,\"c\":5}}
{\"commit\":true}
",
    "CREATE TABLE r (a BIGINT, b BIGINT);
CREATE VIEW u AS SELECT a FROM r;
CREATE TABLE s (c BIGINT, d BIGINT);
CREATE VIEW v AS SELECT a FROM u EXCEPT SELECT c FROM s;
---
{\"table\":\"r\",\"insert\":{\"a\":1,\"b\":2}}
{\"table\":\"r\",\"insert\":{\"a\":3,\"b\":2}}
{\"table\":\"s\",\"insert\":{\"c\":3,\"d\":1}}
{\"commit\":true}
",
    "CREATE TABLE t (g INT, a INT);
CREATE TABLE u (b INT);
CREATE VIEW v AS SELECT q.g, q.s, u.b FROM (SELECT g, SUM(a) AS s FROM t GROUP BY g HAVING COUNT(*) > 1) q LEFT JOIN u ON q.s = u.b;
CREATE VIEW w AS SELECT DISTINCT q.a + 1 AS n FROM t x CROSS JOIN (SELECT a FROM t EXCEPT SELECT b FROM u) q
WHERE NOT (q.a IS NULL OR x.g <> 1);
---
{\"commit\":true}
{\"table\":\"t\",\"insert\":{\"g\":1,\"a\":2}}
{\"table\":\"t\",\"insert\":{\"g\":1,\"a\":3}}
{\"table\":\"t\",\"insert\":{\"g\":2,\"a\":7}}
{\"table\":\"t\",\"insert\":{\"g\":2}}
{\"table\":\"t\",\"insert\":{\"g\":3,\"a\":9}}
{\"table\":\"u\",\"insert\":{\"b\":5}}
{\"table\":\"u\",\"insert\":{\"b\":2}}
{\"commit\":true}
",
];
