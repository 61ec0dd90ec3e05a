//! The generator of the sample's rows.
ghost use Rattle.std.specs.Prelude.{◌≡◌, ◌+◌, ◌%◌, ◌<◌, ◌^◌, IfOk, pos};
ghost use Rattle.sq_sample.specs.Numbers.{drawn, next, row_from, state_at};

use sq_value::{NoMemory, Row, Value};
use std::alloc::Global;

/// A generator at a row of the table e: its state before the two draws of the row, and the number of the row.
#[derive(Clone, Copy, Debug)]
pub struct Generator {
    pub state: u64,
    pub number: u32,
}

impl Generator {
    /// At the row with the number 0.
    pub fn new(seed: u32) -> Generator
        ensures state { result.state ≡ state_at seed 0 }
        ensures number { result.number ≡ 0 }
    {
        Generator {
            state: u64::from(seed),
            number: 0,
        }
    }

    /// The row at which the generator is.
    pub fn row(self, alloc: Global) -> Result<Row, NoMemory>
        ensures { IfOk result (λ row. row ≡ row_from self.state self.number) }
    {
        let first = next(self.state);
        let second = next(first);
        let mut values = Vec::with_capacity(alloc, 3)?;
        values.push(Value::Int(i64::from(self.number)))?;
        values.push(Value::Int(below_thousand(first)))?;
        values.push(Value::Int(below_thousand(second)))?;
        Ok(Row::of(values))
    }

    /// The generator at the next row.
    pub fn advanced(self) -> Generator
        requires { self.number + 1 < 2 ^ 32 }
        ensures state { result.state ≡ next (next self.state) }
        ensures number { result.number ≡ self.number + 1 }
    {
        Generator {
            state: next(next(self.state)),
            number: self.number + 1,
        }
    }
}

// The state after this one.
fn next(state: u64) -> u64
    ensures { result ≡ next state }
{
    state
        .wrapping_mul(6_364_136_223_846_793_005)
        .wrapping_add(1_442_695_040_888_963_407)
}

// The number that is drawn in a state, below 1000.
fn below_thousand(state: u64) -> i64
    ensures { result ≡ pos (drawn state % 1000) }
{
    ((state >> 32) % 1000) as i64
}
