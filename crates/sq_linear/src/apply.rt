//! A linear operator on a Z-set: the images of all rows, consolidated.
ghost use Rattle.std.specs.Prelude.{◌≡◌, ◌++◌, ◌*◌, ◌^◌, ◌≤◌, [], ℤ, Some, None, length, IfOk, OnOk};
ghost use Rattle.std.specs.List.{flat_map};
ghost use Rattle.sq_algebra.specs.Operators.{image, weighing};
ghost use Rattle.sq_algebra.specs.ZSet.{entries};
ghost use Rattle.sq_ops.specs.Extensions.{first_value_outside};
ghost use Rattle.sq_ops.specs.Fits.{FitsRows};
ghost use Rattle.sq_value.specs.Order.{row_cmp};
ghost use Rattle.sq_zset.specs.Pairs.{mass, weighted_rows};
ghost use Rattle.sq_zset.specs.Range.{first_outside, IsInRange};

use crate::LinearFault;
use sq_ops::{Linear, OpFault};
use sq_value::{NoMemory, Row};
use sq_zset::{Pair, ZSet};
use std::alloc::Global;

/// The operator on a Z-set: the images of each row, with its weight. The weights of equal images add up.
///
/// Each row is of kinds that suit the operator. The answer is `Value` exactly if an item of some row lies outside the
/// range of BIGINT, with the first such number of the first such row in the order of rows; else `Weight` exactly if the
/// weight of some row of the answer lies outside the range of a weight, with that of the first such row; and `Memory` when
/// memory runs out.
pub fn apply_linear<O: Linear>(alloc: Global, op: &O, z: &ZSet) -> Result<ZSet, LinearFault>
    requires { FitsRows (O.suits op.now) z.now }
    ensures ok { IfOk result (λ answer. answer ≡ image row_cmp (O.images op.now) z.now) }
    ensures in_range { IfOk result IsInRange }
    ensures all_values { OnOk result (first_value_outside (O.tested op.now) z.now ≡ None) }
    ensures value { (value : ℤ) → result ≡ Err (LinearFault.Value value) → first_value_outside (O.tested op.now) z.now ≡ Some value }
    ensures values_first { (sum : ℤ) → result ≡ Err (LinearFault.Weight sum) → first_value_outside (O.tested op.now) z.now ≡ None }
    ensures weight { (sum : ℤ) → result ≡ Err (LinearFault.Weight sum) → first_outside (image row_cmp (O.images op.now) z.now) ≡ Some sum }
{
    let pairs = image_pairs(alloc, op, z)?;
    let answer = ZSet::consolidate(alloc, pairs)?;
    Ok(answer)
}

/// The images of the rows, in the order of rows, each with the weight of its row.
fn image_pairs<O: Linear>(alloc: Global, op: &O, z: &ZSet) -> Result<Vec<Pair>, OpFault>
    requires { FitsRows (O.suits op.now) z.now }
    ensures ok { IfOk result (λ pairs. weighted_rows pairs.items ≡ flat_map (λ e. weighing e.1 (O.images op.now e.0)) (entries z.now)) }
    ensures mass { IfOk result (λ pairs. mass pairs.items ≤ length pairs.items * 2 ^ 62) }
    ensures all_values { OnOk result (first_value_outside (O.tested op.now) z.now ≡ None) }
    ensures value { (value : ℤ) → result ≡ Err (OpFault.Value value) → first_value_outside (O.tested op.now) z.now ≡ Some value }
{
    let mut pairs = Vec::new(alloc);
    let mut images = Vec::new(alloc);
    for i in 0..z.len() {
        let (row, weight) = z.at(i);
        op.image(alloc, row, &mut images)?;
        move_weighed(&mut images, weight, &mut pairs)?;
    }
    Ok(pairs)
}

/// Moves the rows to the end of the pairs, each with the weight.
fn move_weighed(rows: &mut Vec<Row>, weight: i64, pairs: &mut Vec<Pair>) -> Result<(), NoMemory>
    ensures moved { OnOk result (weighted_rows pairs.new.items ≡ weighted_rows pairs.old.items ++ weighing weight rows.old.items) }
    ensures emptied { OnOk result (rows.new.items ≡ []) }
{
    let weight = i128::from(weight);
    for row in rows.drain(..) {
        pairs.push(Pair { row, weight })?;
    }
    Ok(())
}
