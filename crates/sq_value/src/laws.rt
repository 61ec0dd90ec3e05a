//! The laws of the orders, of `count` and of key bytes, most as the contract of a function that does nothing.
ghost use Rattle.std.specs.Prelude.{◌≡◌, ◌≢◌, ◌↔◌, ◌+◌, ℕ, List, [], ◌∷◌, ◌++◌};
ghost use Rattle.std.specs.Cmp.{IsTotalOrder};
ghost use Rattle.std.specs.List.{AllByRecursion};
ghost use Rattle.std.specs.Ordering.{nat_cmp};
ghost use Rattle.std.specs.declared.cmp.Ordering.TheVariants.{Equal};
ghost use Rattle.sq_value.specs.declared.value.Value.{Value as Datum};
ghost use Rattle.sq_value.specs.Count.{count};
ghost use Rattle.sq_value.specs.KeyBytes.{row_key, IsKept};
ghost use Rattle.sq_value.specs.Order.{row_cmp, text_cmp, value_cmp};
ghost use Rattle.sq_value.specs.Truth.{rank};

use crate::{NoMemory, Row, Str, Tri, Value};
use std::cmp::Ordering;

/// Texts are in a total order, in which only the same text is equal.
pub fn order_of_texts()
    ensures total { IsTotalOrder text_cmp }
    ensures same { (s t : List ℕ) → (text_cmp s t ≡ Equal) ↔ (s ≡ t) }
{}

/// Values are in a total order, in which only the same value is equal.
pub fn order_of_values()
    ensures total { IsTotalOrder value_cmp }
    ensures same { (x y : Datum) → (value_cmp x y ≡ Equal) ↔ (x ≡ y) }
{}

/// Rows are in a total order, in which only the same row is equal.
pub fn order_of_rows()
    ensures total { IsTotalOrder row_cmp }
    ensures same { (r s : List Datum) → (row_cmp r s ≡ Equal) ↔ (r ≡ s) }
{}

/// The number of places that hold a row goes through a list place by place.
pub fn count_of_a_row()
    ensures empty { (r : List Datum) → count r [] ≡ 0 }
    ensures same { (r : List Datum) (rows : List (List Datum)) → count r (r ∷ rows) ≡ 1 + count r rows }
    ensures other { (r s : List Datum) (rows : List (List Datum)) → r ≢ s → count r (s ∷ rows) ≡ count r rows }
    ensures append { (r : List Datum) (rows more : List (List Datum)) → count r (rows ++ more) ≡ count r rows + count r more }
{}

/// What `cmp` says of two truth values is the order of their ranks: False, then Unknown, then True.
pub fn order_of_truths(a: Tri, b: Tri) -> Ordering
    ensures { result ≡ nat_cmp (rank a) (rank b) }
{
    a.cmp(&b)
}

/// Equal key bytes come from equal rows, if numbers lie from -2^63 to 2^63 - 1 and texts have fewer than 2^64 bytes.
#[tactic(auto, using(crate::proofs::KeyLemmas::rows_same))]
pub fn key_bytes_tell_rows()
    ensures { (r s : List Datum) → AllByRecursion IsKept r → AllByRecursion IsKept s → row_key r ≡ row_key s → r ≡ s }
{}

fn is_send_and_sync<T: Send + Sync>() {}

// Each type of data may be handed to another thread, and be shared.
fn data_crosses_threads() {
    is_send_and_sync::<Str>();
    is_send_and_sync::<Value>();
    is_send_and_sync::<Row>();
    is_send_and_sync::<Tri>();
    is_send_and_sync::<NoMemory>();
}
