//! A fixed sequence of numbers, and changes of rows drawn from it.

/// A row of a number and a number or NULL, with a weight.
pub type Item = (i64, Option<i64>, i64);

/// Three rows with weights.
pub type Change = [Item; 3];

/// The number behind this one.
pub fn next(number: u64) -> u64 {
    number
        .wrapping_mul(6_364_136_223_846_793_005)
        .wrapping_add(1_442_695_040_888_963_407)
}

// The row of the cell: its lower two bits are the first number, the upper two the second, or NULL if they are 0.
fn row_of_cell(cell: u64) -> (i64, Option<i64>) {
    let second = (cell >> 2 & 3) as i64;
    (
        (cell & 3) as i64,
        if second == 0 { None } else { Some(second) },
    )
}

// Sets the weight of the cell to one below 4, often to 0: the row of the cell, and by how much its weight rises.
fn draw(weights: &mut [i64; 16], bits: u64) -> Item {
    let cell = bits % 16;
    let new = (bits >> 4 & bits >> 6 & 3) as i64;
    let old = weights[cell as usize];
    weights[cell as usize] = new;
    let (first, second) = row_of_cell(cell);
    (first, second, new.wrapping_sub(old))
}

/// Fifty changes, from no rows on. No weight falls below 0, and groups come and go.
pub fn drawn_changes() -> [Change; 50] {
    let mut weights = [0; 16];
    let mut changes = [[(0, None, 0); 3]; 50];
    let mut number = 1;
    for change in changes.iter_mut() {
        for item in change.iter_mut() {
            number = next(number);
            *item = draw(&mut weights, number >> 32);
        }
    }
    changes
}
