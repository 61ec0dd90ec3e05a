//! `Acc`: what is kept of a group for its aggregates, as an abelian group.
ghost use Rattle.std.specs.Prelude.{◌≡◌, ◌≤◌, ◌^◌, None, IfOk, unsigned_abs};
ghost use Rattle.sq_agg.specs.Accumulators.{accumulated, count_place, first_number_outside, sum_place};
ghost use Rattle.sq_algebra.specs.ZSet.{entries, weight};
ghost use Rattle.sq_ops.specs.Aggregates.{SuitsSpec};
ghost use Rattle.sq_ops.specs.Fits.{FitsRows};
ghost use Rattle.sq_ops.specs.Measures.{weighted};
ghost use Rattle.sq_zset.specs.Collecting.{mass_of};

use crate::tally::{
    Tally, copy_tallies, is_nothing, negate_tallies, plus_tallies, tallies_of, tallies_of_row,
    tally_at,
};
use sq_ops::{AggSpec, total_of};
use sq_value::{NoMemory, Row};
use sq_zset::{Group, ZFault, ZSet};
use std::alloc::Global;
use std::marker::Model;

/// What is kept of a group for its aggregates: the number of its rows, and for each call the count and the sum of its values.
///
/// Accumulators add up number by number, whatever their numbers of calls are: a call that is not there counts and sums to 0.
/// The number of rows and the counts lie from -2^62 to 2^62, the sums are above -2^126 and below 2^126.
#[derive(Debug, Drop)]
pub struct Acc {
    rows: i64,
    tallies: Vec<Tally>,
}

impl Model for Acc {
    ghost use Rattle.std.specs.Prelude.{ℕ};
    ghost use Rattle.std.specs.Coded.{coded_ℕ};
    ghost use Rattle.std.specs.Ordering.{nat_cmp};
    ghost use Rattle.sq_agg.specs.Accumulators.{accumulator};
    ghost use Rattle.sq_agg.specs.Tallies.{AreWithin};
    ghost use Rattle.sq_algebra.specs.ZSet.{ZSet as Weighted, code};

    ghost Value = { Weighted ℕ nat_cmp };

    ghost coded = { code coded_ℕ };

    ghost view = { λ acc. accumulator acc.rows acc.tallies.items };

    ghost invariant = { λ acc. AreWithin acc.rows acc.tallies.items };
}

impl Acc {
    /// The accumulator of the rows of a group, or of a change of them: how many there are, whatever the calls are, and for
    /// each call how many values it takes. COUNT of all rows takes each row, and any other call the values that are not
    /// NULL. The sum is that of the values for SUM, and 0 for any other call.
    ///
    /// The rows are of kinds that suit the aggregate, and their absolute weights add up to at most 2^62. The answer is
    /// `NoMemory` when memory runs out.
    pub fn of_rows(alloc: Global, spec: &AggSpec, z: &ZSet) -> Result<Acc, NoMemory>
        requires fits { FitsRows (SuitsSpec spec.now) z.now }
        requires few { mass_of (entries z.now) ≤ 2 ^ 62 }
        ensures ok { IfOk result (λ acc. acc ≡ accumulated spec.now.calls z.now) }
        ensures in_range { IfOk result (λ acc. first_number_outside acc ≡ None) }
    {
        let tallies = tallies_of(alloc, spec.calls.as_slice(), z)?;
        let rows = total_of(z);
        Ok(Acc { rows, tallies })
    }

    /// The accumulator of a row that is there as often as the weight says, for these calls; or `NoMemory` when memory
    /// runs out. The weight is at most 2^62 and at least -2^62. That of a change is the sum of those of its rows.
    pub fn of_row(alloc: Global, spec: &AggSpec, row: &Row, weight: i64) -> Result<Acc, NoMemory>
        requires { unsigned_abs weight ≤ 2 ^ 62 }
        ensures ok { IfOk result (λ acc. acc ≡ accumulated spec.now.calls (weighted row.now weight)) }
        ensures in_range { IfOk result (λ acc. first_number_outside acc ≡ None) }
    {
        let tallies = tallies_of_row(alloc, spec.calls.as_slice(), row, weight)?;
        Ok(Acc {
            rows: weight,
            tallies,
        })
    }

    /// The number of rows. Takes no memory.
    pub fn rows(&self) -> i64
        ensures rows { result ≡ weight 0 self.now }
        ensures in_range { first_number_outside self.now ≡ None }
    {
        self.rows
    }

    /// The count of the call with this number, counted from 0, and 0 if there is none. Takes no memory.
    pub fn count(&self, call: usize) -> i64
        ensures { result ≡ weight (count_place call) self.now }
    {
        tally_at(&self.tallies, call).count
    }

    /// The sum of the call with this number, counted from 0, and 0 if there is none. Takes no memory.
    pub fn sum(&self, call: usize) -> i128
        ensures { result ≡ weight (sum_place call) self.now }
    {
        tally_at(&self.tallies, call).sum
    }
}

impl Group for Acc {
    ghost use Rattle.std.specs.Ordering.{nat_cmp};
    ghost use Rattle.sq_agg.specs.GroupLaws.{accumulators_are_abelian, nothing_is_in_range};
    ghost use Rattle.sq_algebra.specs.Groups.{z_sets};

    ghost addition = { z_sets nat_cmp };

    ghost first_outside = { λ acc. first_number_outside acc };

    fn zero(alloc: Global) -> Acc {
        Acc {
            rows: 0,
            tallies: Vec::new(alloc),
        }
    }

    fn is_zero(&self) -> bool {
        is_nothing(self.rows, &self.tallies)
    }

    fn plus(&self, alloc: Global, other: &Acc) -> Result<Acc, ZFault> {
        let rows = Group::plus(&self.rows, alloc, &other.rows)?;
        let tallies = plus_tallies(alloc, &self.tallies, &other.tallies)?;
        Ok(Acc { rows, tallies })
    }

    fn negate(&self, alloc: Global) -> Result<Acc, NoMemory> {
        let tallies = negate_tallies(alloc, &self.tallies)?;
        Ok(Acc {
            rows: -self.rows,
            tallies,
        })
    }

    fn clone_group(&self, alloc: Global) -> Result<Acc, NoMemory> {
        let tallies = copy_tallies(alloc, &self.tallies)?;
        Ok(Acc {
            rows: self.rows,
            tallies,
        })
    }

    ghost laws = { accumulators_are_abelian };

    ghost zero_in_range = { nothing_is_in_range };
}
