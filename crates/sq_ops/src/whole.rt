//! The trait `Whole` of operators that work key by key, and `Distinct`.
ghost use Rattle.std.specs.Prelude.{◌≡◌, ◌↔◌, ◌^◌, IsTrue, ◌≤ℤ◌, ℤ, List, pos, IfOk, OnOk, Some, None};
ghost use Rattle.std.specs.List.{All};
ghost use Rattle.sq_algebra.specs.Operators.{IsNonNegative, distinct};
ghost use Rattle.sq_algebra.specs.ZSet.{entries, total};
ghost use Rattle.sq_expr.specs.Bigint.{first_not_bigint};
ghost use Rattle.sq_ops.specs.Fits.{FitsRow, FitsRows};
ghost use Rattle.sq_value.specs.declared.value.Value.{Value as Datum};
ghost use Rattle.sq_zset.specs.Range.{IsInRange};
ghost use Rattle.sq_ops.specs.declared.whole.WholeFault.TheVariants.{Memory};

use sq_value::{NoMemory, Row};
use sq_zset::ZSet;
use std::alloc::{AllocError, AllocFailed, Global};

/// Why an operator that works key by key gives nothing.
#[derive(Debug, Drop, PartialEq, Eq)]
pub enum WholeFault {
    /// A SUM is outside the range of BIGINT, -2^63 to 2^63 - 1. `key` is the first such group in the order of rows, and
    /// `sum` is the first such sum of the group.
    Sum { key: Row, sum: i128 },
    /// Memory ran out.
    Memory,
}

impl From<NoMemory> for WholeFault {
    ghost from_gives = { λ _ fault. fault ≡ Memory };

    fn from(_: NoMemory) -> WholeFault {
        WholeFault::Memory
    }
}

impl From<AllocError> for WholeFault {
    ghost from_gives = { λ _ fault. fault ≡ Memory };

    fn from(_: AllocError) -> WholeFault {
        WholeFault::Memory
    }
}

impl<T: Drop> From<AllocFailed<T>> for WholeFault {
    ghost from_gives = { λ _ fault. fault ≡ Memory };

    fn from(_: AllocFailed<T>) -> WholeFault {
        WholeFault::Memory
    }
}

/// An operator that works key by key: the rows with one key give a part of the answer, and the parts add up. A part over
/// no rows is empty, but for the key without values if that stands.
pub trait Whole {
    ghost use Rattle.std.specs.Prelude.{Bool, List, ℤ};
    ghost use Rattle.sq_algebra.specs.ZSet.{ZSet as Weighted};
    ghost use Rattle.sq_expr.specs.declared.expr.Kind.{Kind as ColumnKind};
    ghost use Rattle.sq_ops.specs.Wholes.{IsNothingForNone, sum_of_parts};
    ghost use Rattle.sq_value.specs.declared.value.Value.{Value as Datum};
    ghost use Rattle.sq_value.specs.Order.{row_cmp};

    /// The key of a row.
    ghost keys: { Self → List Datum → List Datum };

    /// Whether the key without values has a part over no rows.
    ghost stands: { Self → Bool };

    /// The part of a key, over its rows.
    ghost parts: { Self → List Datum → Weighted (List Datum) row_cmp → Weighted (List Datum) row_cmp };

    /// The sums over a part that are tested against the range of BIGINT, in order.
    ghost sums: { Self → Weighted (List Datum) row_cmp → List ℤ };

    /// Whether the operator takes rows of these kinds.
    ghost suits: { Self → List ColumnKind → Type 0 };

    /// The answer over all rows.
    ghost answers: { Self → Weighted (List Datum) row_cmp → Weighted (List Datum) row_cmp };

    /// The key of the row, or `NoMemory` when memory runs out.
    fn key(&self, alloc: Global, row: &Row) -> Result<Row, NoMemory>
        requires { FitsRow (suits self.now) row.now }
        ensures { IfOk result (λ key. key ≡ keys self.now row.now) };

    /// Whether the key without values has a part over no rows. Takes no memory.
    fn standing(&self) -> bool
        ensures { result ≡ stands self.now };

    /// The part of the key over `z`, whose rows all have this key, without negative weights and with a total of at most
    /// 2^61.
    ///
    /// The answer is `Sum` exactly if a sum over `z` lies outside the range of BIGINT, with the key and the first such
    /// sum, and `Memory` when memory runs out.
    fn part(&self, alloc: Global, key: &Row, z: &ZSet) -> Result<ZSet, WholeFault>
        requires fits { FitsRows (suits self.now) z.now }
        requires one_key { All (λ e. keys self.now e.0 ≡ key.now) (entries z.now) }
        requires not_negative { IsNonNegative z.now }
        requires bounded { total z.now ≤ℤ pos (2 ^ 61) }
        ensures ok { IfOk result (λ answer. answer ≡ parts self.now key.now z.now) }
        ensures in_range { IfOk result IsInRange }
        ensures all_sums { OnOk result (first_not_bigint (sums self.now z.now) ≡ None) }
        ensures outside { (group : List Datum) (sum : ℤ) → result ≡ Err (WholeFault.Sum group sum) → (group ≡ key.now) × (first_not_bigint (sums self.now z.now) ≡ Some sum) };

    /// The answer is the sum of the parts by key: the standing rows, and what the rows of each key add to them.
    ghost adds_up: { (op : Self) (z : Weighted (List Datum) row_cmp) → answers op z ≡ sum_of_parts (parts op) (stands op) (keys op) z };

    /// A part over no rows is empty, but for the key without values if that stands.
    ghost nothing_for_none: { (op : Self) → IsNothingForNone (parts op) (stands op) };
}

/// Gives each row with a weight above 0 the weight 1.
#[derive(Clone, Copy, Debug, PartialEq, Eq)]
pub struct Distinct;

impl Distinct {
    /// Whether another operator is the same, as each is. Takes no memory.
    pub fn is_same(&self, other: &Distinct) -> bool
        ensures { IsTrue result ↔ (self.now ≡ other.now) }
    {
        *self == *other
    }
}

impl Whole for Distinct {
    ghost use Rattle.std.specs.Prelude.{[], false, ⊤, pos, int_lt, if◌then◌else◌};
    ghost use Rattle.sq_algebra.specs.Operators.{distinct};
    ghost use Rattle.sq_algebra.specs.ZSet.{single, weight, zero};
    ghost use Rattle.sq_ops.specs.WholeLaws.{distinct_adds_up, distinct_is_nothing_for_none};
    ghost use Rattle.sq_value.specs.Order.{row_cmp};

    ghost keys = { λ _ row. row };

    ghost stands = { λ _. false };

    ghost parts = { λ _ row z. if int_lt (pos 0) (weight row z) then single row_cmp row else zero row_cmp };

    ghost sums = { λ _ _. [] };

    ghost suits = { λ _ _. ⊤ };

    ghost answers = { λ _ z. distinct z };

    fn key(&self, alloc: Global, row: &Row) -> Result<Row, NoMemory> {
        row.clone_row(alloc)
    }

    fn standing(&self) -> bool {
        false
    }

    fn part(&self, alloc: Global, key: &Row, z: &ZSet) -> Result<ZSet, WholeFault> {
        if z.weight_of(key) <= 0 {
            return Ok(ZSet::empty(alloc));
        }
        Ok(ZSet::of_row(alloc, key.clone_row(alloc)?)?)
    }

    ghost adds_up = { λ _ z. distinct_adds_up z };

    ghost nothing_for_none = { λ _. distinct_is_nothing_for_none };
}
