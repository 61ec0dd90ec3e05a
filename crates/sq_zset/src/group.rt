//! The trait `Group`, an abelian group whose numbers have ranges, and the whole numbers as one.
ghost use Rattle.std.specs.Prelude.{◌≡◌, ◌↔◌, ℤ, Option, Some, None, IsTrue, IfOk};
ghost use Rattle.sq_algebra.specs.Groups.{AbelianGroup, IsAbelian};

use crate::ZFault;
use crate::merge::weight_from;
use sq_value::NoMemory;
use std::alloc::Global;

/// Values that form an abelian group, with numbers that each have a range.
pub trait Group: Drop + Sized {
    /// The addition of the values, with its zero and its negation.
    ghost addition: { AbelianGroup Self };

    /// The first number of a value that lies outside its range.
    ghost first_outside: { Self → Option ℤ };

    /// The zero of the group, which lies in the range. Takes no memory.
    fn zero(alloc: Global) -> Self
        ensures zero { result ≡ addition.zero }
        ensures in_range { first_outside result ≡ None };

    /// Whether this is the zero of the group. Takes no memory.
    fn is_zero(&self) -> bool
        ensures { IsTrue result ↔ (self.now ≡ addition.zero) };

    /// The sum of two values in the range.
    ///
    /// The answer is `Weight` exactly if a number of the sum lies outside its range, with the first such number, and
    /// `Memory` when memory runs out.
    fn plus(&self, alloc: Global, other: &Self) -> Result<Self, ZFault>
        requires self_in_range { first_outside self.now ≡ None }
        requires other_in_range { first_outside other.now ≡ None }
        ensures ok { IfOk result (λ sum. sum ≡ addition.plus self.now other.now) }
        ensures in_range { IfOk result (λ sum. first_outside sum ≡ None) }
        ensures outside { (number : ℤ) → result ≡ Err (ZFault.Weight number) → first_outside (addition.plus self.now other.now) ≡ Some number };

    /// The negation of a value in the range, or `NoMemory` when memory runs out.
    fn negate(&self, alloc: Global) -> Result<Self, NoMemory>
        requires self_in_range { first_outside self.now ≡ None }
        ensures ok { IfOk result (λ negation. negation ≡ addition.negate self.now) }
        ensures in_range { IfOk result (λ negation. first_outside negation ≡ None) };

    /// A value of its own, equal to this one in the range, or `NoMemory` when memory runs out.
    fn clone_group(&self, alloc: Global) -> Result<Self, NoMemory>
        requires self_in_range { first_outside self.now ≡ None }
        ensures ok { IfOk result (λ copy. copy ≡ self.now) }
        ensures in_range { IfOk result (λ copy. first_outside copy ≡ None) };

    /// The laws of an abelian group.
    ghost laws: { IsAbelian addition };

    /// Zero lies in the range, also where no code asks for it.
    ghost zero_in_range: { first_outside addition.zero ≡ None };
}

impl Group for i64 {
    ghost use Rattle.std.specs.Prelude.{◌+ℤ◌, neg_ℤ, Ok, IfErr, OnErr};
    ghost use Rattle.sq_algebra.specs.Groups.{integers};
    ghost use Rattle.sq_zset.specs.GroupLaws.{integers_are_abelian, zero_is_in_range};
    ghost use Rattle.sq_zset.specs.Range.{number_outside};

    ghost addition = { integers };

    ghost first_outside = { number_outside };

    fn zero(_: Global) -> i64 {
        0
    }

    fn is_zero(&self) -> bool {
        *self == 0
    }

    // Whole numbers take no memory, so only the range refuses.
    fn plus(&self, _: Global, other: &i64) -> Result<i64, ZFault>
        requires self_in_range { number_outside self.now ≡ None }
        requires other_in_range { number_outside other.now ≡ None }
        ensures ok { IfOk result (λ sum. sum ≡ self.now +ℤ other.now) }
        ensures in_range { IfOk result (λ sum. number_outside sum ≡ None) }
        ensures fault { IfErr result (λ fault. fault ≡ ZFault.Weight (self.now +ℤ other.now)) }
        ensures outside { OnErr result (number_outside (self.now +ℤ other.now) ≡ Some (self.now +ℤ other.now)) }
    {
        Ok(weight_from(i128::from(*self) + i128::from(*other))?)
    }

    fn negate(&self, _: Global) -> Result<i64, NoMemory>
        requires self_in_range { number_outside self.now ≡ None }
        ensures ok { result ≡ Ok (neg_ℤ self.now) }
        ensures in_range { number_outside (neg_ℤ self.now) ≡ None }
    {
        Ok(-*self)
    }

    fn clone_group(&self, _: Global) -> Result<i64, NoMemory>
        requires self_in_range { number_outside self.now ≡ None }
        ensures ok { result ≡ Ok self.now }
    {
        Ok(*self)
    }

    ghost laws = { integers_are_abelian };

    ghost zero_in_range = { zero_is_in_range };
}
