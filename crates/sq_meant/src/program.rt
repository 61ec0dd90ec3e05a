//! The program of the sample.

/// The text of the program: two tables, and five views over them.
pub const PROGRAM: &str = "CREATE TABLE d (k INTEGER NOT NULL, g INTEGER NOT NULL);
CREATE TABLE e (id INTEGER NOT NULL, k INTEGER NOT NULL, n INTEGER NOT NULL);
CREATE VIEW totals AS SELECT COUNT(*) AS c, SUM(n) AS s FROM e;
CREATE VIEW by_key AS SELECT k, COUNT(*) AS c, MIN(n) AS lo, MAX(n) AS hi FROM e GROUP BY k;
CREATE VIEW by_group AS SELECT d.g, SUM(e.n) AS s FROM e JOIN d ON e.k = d.k GROUP BY d.g;
CREATE VIEW unused AS SELECT d.k FROM d LEFT JOIN e ON d.k = e.k WHERE e.id IS NULL;
CREATE VIEW seen AS SELECT DISTINCT n FROM e;
";
