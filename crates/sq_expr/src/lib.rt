//! Expressions and conditions: the part of SQL that computes with the values of one row.
//!
//! `specs/Meaning.antt` says what they are on a row, with numbers that have no bound; `eval` and `test` compute
//! that in 128 bits, and take no memory. They have a condition: the row is of kinds for which the expression is
//! typed and has a static bound (`specs/Typing.antt`, `specs/Bounds.antt`). `suits`, `suits_cond` and
//! `is_of_kinds` test it. `item` makes a value for a row, and refuses a number that leaves BIGINT.
#![tactic(auto)]

mod compute;
mod cond;
mod copy;
mod expr;
mod joined;
pub mod laws;
mod limit;
mod number;
mod same;
mod shift;
mod typing;
mod value;

pub use compute::{eval, test, test_both};
pub use cond::{Cmp, Cond};
pub use expr::{Expr, Func, Kind, Term};
pub use limit::bound;
pub use number::Num;
pub use typing::{Sort, expr_sort, is_bounded, is_of_kinds, is_typed, suits, suits_cond};
pub use value::{ItemFault, OutOfRange, item, to_i64};
