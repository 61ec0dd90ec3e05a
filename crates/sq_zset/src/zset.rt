//! `ZSet`: rows with weights as a sorted vector, its sums and differences, and Z-sets as a group.
ghost use Rattle.std.specs.Prelude.{◌≡◌, ◌<◌, ◌≤◌, ◌^◌, ◌∷◌, [], ℕ, ℤ, List, length, slice_get, Some, unsigned_abs, IfOk};
ghost use Rattle.std.specs.declared.cmp.Ordering.TheVariants.{Less};
ghost use Rattle.sq_value.specs.declared.value.Value.{Value as Datum};
ghost use Rattle.sq_value.specs.Order.{row_cmp};
ghost use Rattle.sq_zset.specs.Pairs.{mass, weighted_rows};
ghost use Rattle.sq_zset.specs.Range.{first_outside, IsInRange};
ghost use Rattle.sq_algebra.specs.ZSet.{entries, from_pairs, of_list, zero, plus, minus, negate, total, weight};

use crate::collect::{single_pairs, sums_of, weights_of};
use crate::merge::{Sign, copy_entries, merge_entries};
use crate::{Group, Pair, ZFault};
use sq_value::{NoMemory, Row};
use std::alloc::Global;
use std::marker::Model;

/// A finite map from rows to weights, whole numbers from -2^62 to 2^62 other than 0 (DBSP, PVLDB 16(7), 2023, on Z-sets).
#[derive(Debug, Drop)]
pub struct ZSet {
    // The rows ascend, and no weight is 0.
    entries: Vec<(Row, i64)>,
}

impl Model for ZSet {
    ghost use Rattle.std.specs.Prelude.{List};
    ghost use Rattle.std.specs.Coded.{coded_list};
    ghost use Rattle.sq_value.specs.declared.value.Value.{Value as Datum};
    ghost use Rattle.sq_value.specs.contracts.value.Value as datum;
    ghost use Rattle.sq_value.specs.Order.{row_cmp};
    ghost use Rattle.sq_algebra.specs.ZSet.{ZSet as Weighted, code, from_entries};

    ghost Value = { Weighted (List Datum) row_cmp };

    ghost coded = { code (coded_list (datum.the_row).coded) };

    ghost use Rattle.sq_zset.specs.Inside.{IsSound};

    ghost view = { λ z. from_entries row_cmp z.entries.items };

    ghost invariant = { λ z. IsSound z.entries.items };
}

impl ZSet {
    /// The Z-set in which no row has a weight. Takes no memory.
    pub fn empty(alloc: Global) -> ZSet
        ensures { result ≡ zero row_cmp }
    {
        ZSet {
            entries: Vec::new(alloc),
        }
    }

    /// The Z-set in which each row has the sum of the weights of its pairs.
    ///
    /// The absolute weights of the pairs add up to at most 2^126. The answer is `Weight` exactly if the sum for some row
    /// lies outside the range of a weight, and `Memory` when memory runs out.
    pub fn consolidate(alloc: Global, pairs: Vec<Pair>) -> Result<ZSet, ZFault>
        requires { mass pairs.items ≤ 2 ^ 126 }
        ensures ok { IfOk result (λ z. z ≡ from_pairs row_cmp (weighted_rows pairs.items)) }
        ensures in_range { IfOk result IsInRange }
        ensures outside { (sum : ℤ) → result ≡ Err (ZFault.Weight sum) → first_outside (from_pairs row_cmp (weighted_rows pairs.items)) ≡ Some sum }
    {
        let sums = sums_of(alloc, pairs)?;
        let entries = weights_of(alloc, sums)?;
        Ok(ZSet { entries })
    }

    /// The Z-set of a list of rows, in which each row has the number of its copies as its weight; or `NoMemory` when
    /// memory runs out.
    pub fn of_rows(alloc: Global, rows: Vec<Row>) -> Result<ZSet, NoMemory>
        ensures ok { IfOk result (λ z. z ≡ of_list row_cmp rows.items) }
        ensures in_range { IfOk result IsInRange }
    {
        let pairs = single_pairs(alloc, rows)?;
        match ZSet::consolidate(alloc, pairs) {
            Ok(z) => Ok(z),
            Err(ZFault::Memory) => Err(NoMemory),
            // No row stands more than 2^62 times in a list.
            Err(ZFault::Weight { .. }) => unreachable!(),
        }
    }

    /// The Z-set of one row with the weight 1, or `NoMemory` when memory runs out.
    pub fn of_row(alloc: Global, row: Row) -> Result<ZSet, NoMemory>
        ensures ok { IfOk result (λ z. z ≡ of_list row_cmp (row ∷ [])) }
        ensures in_range { IfOk result IsInRange }
    {
        let mut entries = Vec::with_capacity(alloc, 1)?;
        entries.push((row, 1))?;
        Ok(ZSet { entries })
    }

    /// The rows with their weights, ascending. Takes the Z-set apart: no row is copied, and it takes no memory.
    pub fn into_entries(self) -> Vec<(Row, i64)>
        ensures entries { result.items ≡ entries self }
        ensures in_range { IsInRange self }
    {
        let ZSet { entries } = self;
        entries
    }

    /// How many rows have a weight. Takes no memory.
    pub fn len(&self) -> usize
        ensures len { result ≡ length (entries self.now) }
        ensures in_range { IsInRange self.now }
    {
        self.entries.len()
    }

    /// The row at place `i`, counted from 0 in ascending order, and its weight. Takes no memory.
    pub fn at(&self, i: usize) -> (&Row, i64)
        requires { i < length (entries self.now) }
        ensures entry { slice_get (entries self.now) i ≡ Some (result.0.now, result.1) }
        ensures ascending { (j : ℕ) (earlier : List Datum × ℤ) → j < i → slice_get (entries self.now) j ≡ Some earlier → row_cmp earlier.0 result.0.now ≡ Less }
        ensures in_range { unsigned_abs result.1 ≤ 2 ^ 62 }
    {
        let entry = &self.entries[i];
        (&entry.0, entry.1)
    }

    /// The sum of all weights. Takes no memory.
    pub fn total(&self) -> i128
        ensures { result ≡ total self.now }
    {
        let mut sum = 0;
        for entry in &self.entries {
            sum += i128::from(entry.1);
        }
        sum
    }

    /// The weight of a row, 0 if it has none. Takes no memory.
    pub fn weight_of(&self, row: &Row) -> i64
        ensures weight { result ≡ weight row.now self.now }
        ensures in_range { unsigned_abs result ≤ 2 ^ 62 }
    {
        match self.entries.binary_search_by(|entry| entry.0.cmp(row)) {
            Ok(i) => self.entries[i].1,
            Err(_) => 0,
        }
    }

    /// The weights of `self` and of `other` added up, row by row, by one merge that copies the rows of the answer alone.
    ///
    /// The answer is `Weight` exactly if some sum lies outside the range of a weight, and `Memory` when memory runs out.
    pub fn plus(&self, alloc: Global, other: &ZSet) -> Result<ZSet, ZFault>
        ensures ok { IfOk result (λ z. z ≡ plus self.now other.now) }
        ensures in_range { IfOk result IsInRange }
        ensures outside { (sum : ℤ) → result ≡ Err (ZFault.Weight sum) → first_outside (plus self.now other.now) ≡ Some sum }
    {
        let entries = merge_entries(alloc, &self.entries, Sign::Plus, &other.entries)?;
        Ok(ZSet { entries })
    }

    /// The weights of `self` less those of `other`, row by row, by one merge that copies the rows of the answer alone.
    ///
    /// The answer is `Weight` exactly if some difference lies outside the range of a weight, and `Memory` when memory runs out.
    pub fn minus(&self, alloc: Global, other: &ZSet) -> Result<ZSet, ZFault>
        ensures ok { IfOk result (λ z. z ≡ minus self.now other.now) }
        ensures in_range { IfOk result IsInRange }
        ensures outside { (sum : ℤ) → result ≡ Err (ZFault.Weight sum) → first_outside (minus self.now other.now) ≡ Some sum }
    {
        let entries = merge_entries(alloc, &self.entries, Sign::Minus, &other.entries)?;
        Ok(ZSet { entries })
    }

    /// Each weight with the other sign, or `NoMemory` when memory runs out.
    pub fn negate(&self, alloc: Global) -> Result<ZSet, NoMemory>
        ensures ok { IfOk result (λ z. z ≡ negate self.now) }
        ensures in_range { IfOk result IsInRange }
    {
        let entries = copy_entries(alloc, Sign::Minus, &self.entries)?;
        Ok(ZSet { entries })
    }
}

impl Group for ZSet {
    ghost use Rattle.sq_algebra.specs.Groups.{z_sets};
    ghost use Rattle.sq_value.specs.Order.{row_cmp};
    ghost use Rattle.sq_zset.specs.GroupLaws.{no_rows_are_in_range, rows_are_abelian};
    ghost use Rattle.sq_zset.specs.Range.{first_outside as first_weight_outside};

    ghost addition = { z_sets row_cmp };

    ghost first_outside = { λ z. first_weight_outside z };

    fn zero(alloc: Global) -> ZSet {
        ZSet::empty(alloc)
    }

    fn is_zero(&self) -> bool {
        self.entries.is_empty()
    }

    fn plus(&self, alloc: Global, other: &ZSet) -> Result<ZSet, ZFault> {
        self.plus(alloc, other)
    }

    fn negate(&self, alloc: Global) -> Result<ZSet, NoMemory> {
        self.negate(alloc)
    }

    fn clone_group(&self, alloc: Global) -> Result<ZSet, NoMemory>
        ensures ok { IfOk result (λ copy. copy ≡ self.now) }
        ensures in_range { IfOk result IsInRange }
    {
        let entries = copy_entries(alloc, Sign::Plus, &self.entries)?;
        Ok(ZSet { entries })
    }

    ghost laws = { rows_are_abelian };

    ghost zero_in_range = { no_rows_are_in_range };
}
