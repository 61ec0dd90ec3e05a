//! A shop of three tables and three views, as its tables are after each of five ticks.
use crate::answers::shows;
use std::test::Fail;

#[test]
fn the_views_of_a_shop_follow_its_tables(rt: HostRuntime) -> Result<(), Fail> {
    shows(
        &rt,
        rt.alloc(),
        "CREATE TABLE customers (id INTEGER NOT NULL, name VARCHAR NOT NULL);
        CREATE TABLE orders (id INTEGER NOT NULL, customer INTEGER NOT NULL);
        CREATE TABLE items (order_id INTEGER NOT NULL, price BIGINT NOT NULL, pieces INTEGER NOT NULL);
        CREATE VIEW revenue AS SELECT c.id, c.name, SUM(i.price * i.pieces) AS total
          FROM customers c JOIN orders o ON c.id = o.customer JOIN items i ON i.order_id = o.id
          GROUP BY c.id, c.name;
        CREATE VIEW large AS SELECT name, MAX(total) AS best FROM revenue
          GROUP BY name HAVING MAX(total) >= 100;
        CREATE VIEW idle AS SELECT c.name FROM customers c LEFT JOIN orders o ON c.id = o.customer
          WHERE o.id IS NULL;",
        &[
            ("- | - | -", "- | - | -"),
            ("1 Ana; 2 Bo | - | -", "- | - | Ana; Bo"),
            ("1 Ana; 2 Bo | 10 1 | 10 30 2", "1 Ana 60 | - | Bo"),
            (
                "1 Ana; 2 Bo | 10 1 | 10 30 2; 10 25 2",
                "1 Ana 110 | Ana 110 | Bo",
            ),
            (
                "1 Ana; 2 Bo | 10 1; 11 2 | 10 25 2; 11 7 1",
                "1 Ana 50; 2 Bo 7 | - | -",
            ),
            ("1 Ana; 2 Bo | 10 1 | 10 25 2; 11 7 1", "1 Ana 50 | - | Bo"),
        ],
    )
}
