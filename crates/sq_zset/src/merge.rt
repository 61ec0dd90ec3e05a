//! Entries of two Z-sets into those of their sum or difference, by one merge; and copies of entries.
ghost use Rattle.std.specs.Prelude.{◌≡◌, ◌++◌, ◌≤◌, ◌^◌, [], ℤ, false, unsigned_abs, IsTrue, IfOk, OnOk, OnErr, IfErr, Some, None, MatchOption};
ghost use Rattle.sq_algebra.specs.ZSet.{in_front};
ghost use Rattle.sq_zset.specs.Inside.{IsSound};
ghost use Rattle.sq_zset.specs.Merge.{first_rows_cmp, BeginsWith, signed, signed_entries, merged};
ghost use Rattle.sq_zset.specs.Range.{is_in_range, first_outside_in};

use crate::{OutsideRange, ZFault};
use sq_value::{NoMemory, Row};
use std::alloc::Global;
use std::cmp::Ordering;

/// How far from 0 a weight may be.
const LIMIT: i128 = 1 << 62;

/// The sign that stands in front of weights.
#[derive(Clone, Copy, Debug, PartialEq, Eq)]
pub enum Sign {
    Plus,
    Minus,
}

impl Sign {
    /// The weight with this sign in front.
    fn of(self, weight: i64) -> i64
        requires { unsigned_abs weight ≤ 2 ^ 62 }
        ensures { result ≡ signed self weight }
    {
        match self {
            Sign::Plus => weight,
            Sign::Minus => -weight,
        }
    }
}

/// Copies of entries, with a sign in front of each weight.
pub fn copy_entries(
    alloc: Global,
    sign: Sign,
    entries: &[(Row, i64)],
) -> Result<Vec<(Row, i64)>, NoMemory>
    requires { first_outside_in entries.now ≡ None }
    ensures { IfOk result (λ list. list.items ≡ signed_entries sign entries.now) }
{
    let mut list = Vec::with_capacity(alloc, entries.len())?;
    for entry in entries {
        let row = entry.0.clone_row(alloc)?;
        list.push((row, sign.of(entry.1)))?;
    }
    Ok(list)
}

/// The weight `sum`, or `OutsideRange` exactly if it lies outside the range of a weight. Takes no memory.
pub fn weight_from(sum: i128) -> Result<i64, OutsideRange>
    ensures ok { IfOk result (λ weight. weight ≡ sum) }
    ensures in_range { OnOk result (IsTrue (is_in_range sum)) }
    ensures outside { OnErr result (is_in_range sum ≡ false) }
    ensures fault { IfErr result (λ outside. outside.sum ≡ sum) }
{
    if sum < -LIMIT || LIMIT < sum {
        return Err(OutsideRange { sum });
    }
    Ok(sum as i64)
}

/// Appends a copy of `row` with the weight `sum`, unless that is 0.
fn push_weight(
    alloc: Global,
    list: &mut Vec<(Row, i64)>,
    row: &Row,
    sum: i128,
) -> Result<(), ZFault>
    ensures ok { OnOk result (list.new.items ≡ list.old.items ++ in_front row.now sum []) }
    ensures in_range { OnOk result (IsTrue (is_in_range sum)) }
    ensures outside { (outside : ℤ) → result ≡ Err (ZFault.Weight outside) → is_in_range sum ≡ false }
    ensures fault { (outside : ℤ) → result ≡ Err (ZFault.Weight outside) → outside ≡ sum }
{
    let weight = weight_from(sum)?;
    if weight != 0 {
        list.push((row.clone_row(alloc)?, weight))?;
    }
    Ok(())
}

/// How the first rows compare. A list with no more rows comes last.
fn compare_first(left: &[(Row, i64)], right: &[(Row, i64)]) -> Option<Ordering>
    ensures { result ≡ first_rows_cmp left.now right.now }
{
    match (left.first(), right.first()) {
        (None, None) => None,
        (None, Some(_)) => Some(Ordering::Greater),
        (Some(_), None) => Some(Ordering::Less),
        (Some(p), Some(q)) => Some(p.0.cmp(&q.0)),
    }
}

/// The lowest row that is left on the two sides of a merge, its weight in the answer, and how many entries it takes from each side.
#[derive(Drop)]
struct Next<'a> {
    row: &'a Row,
    weight: i128,
    from_left: usize,
    from_right: usize,
}

/// The next row of a merge, if any is left.
fn next_row<'a>(left: &'a [(Row, i64)], sign: Sign, right: &'a [(Row, i64)]) -> Option<Next<'a>>
    requires left_sound { IsSound left.now }
    requires right_sound { IsSound right.now }
    ensures { MatchOption result ((left.now ≡ []) × (right.now ≡ [])) (λ next. BeginsWith sign left.now right.now next.row.now next.weight next.from_left next.from_right) }
{
    match compare_first(left, right)? {
        Ordering::Less => Some(Next {
            row: &left[0].0,
            weight: i128::from(left[0].1),
            from_left: 1,
            from_right: 0,
        }),
        Ordering::Equal => Some(Next {
            row: &left[0].0,
            weight: i128::from(left[0].1) + i128::from(sign.of(right[0].1)),
            from_left: 1,
            from_right: 1,
        }),
        Ordering::Greater => Some(Next {
            row: &right[0].0,
            weight: i128::from(sign.of(right[0].1)),
            from_left: 0,
            from_right: 1,
        }),
    }
}

/// The entries of the sum or the difference of two Z-sets, made from theirs by one merge.
pub fn merge_entries(
    alloc: Global,
    left: &[(Row, i64)],
    sign: Sign,
    right: &[(Row, i64)],
) -> Result<Vec<(Row, i64)>, ZFault>
    requires left_sound { IsSound left.now }
    requires right_sound { IsSound right.now }
    ensures ok { IfOk result (λ list. list.items ≡ merged sign left.now right.now) }
    ensures in_range { IfOk result (λ list. first_outside_in list.items ≡ None) }
    ensures outside { (sum : ℤ) → result ≡ Err (ZFault.Weight sum) → first_outside_in (merged sign left.now right.now) ≡ Some sum }
{
    let (mut left, mut right) = (left, right);
    let mut list = Vec::new(alloc);
    while let Some(next) = next_row(left, sign, right) {
        push_weight(alloc, &mut list, next.row, next.weight)?;
        left = &left[next.from_left..];
        right = &right[next.from_right..];
    }
    Ok(list)
}
