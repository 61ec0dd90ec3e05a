//! The trait `Linear` of operators that give images of rows, and its types `Keep`, `Project` and `Pad`.
ghost use Rattle.std.specs.Prelude.{◌≡◌, ◌↔◌, ◌++◌, IsTrue, ℤ, List, Some, None, IfOk, OnOk, OnErr};
ghost use Rattle.std.specs.List.{AllByRecursion};
ghost use Rattle.sq_expr.specs.Fits.{Fits};
ghost use Rattle.sq_expr.specs.Bigint.{first_not_bigint};
ghost use Rattle.sq_ops.specs.Fits.{FitsRow};
ghost use Rattle.sq_ops.specs.Rows.{items_of, numbers_of, padded};

use crate::OpFault;
use crate::copy::copy_values;
use crate::items::{clone_items, same_items};
use sq_expr::{Cond, Expr, item, test};
use sq_value::{NoMemory, Row, Tri, Value};
use sqlite_items::Items;
use std::alloc::Global;

/// An operator that gives each row a list of images. Its extension to Z-sets gives each image the weight of its row, and
/// the weights of equal images add up.
pub trait Linear {
    ghost use Rattle.std.specs.Prelude.{List, ℤ};
    ghost use Rattle.sq_algebra.specs.Groups.{IsAdditive, z_sets};
    ghost use Rattle.sq_algebra.specs.Operators.{image as extension};
    ghost use Rattle.sq_expr.specs.declared.expr.Kind.{Kind as ColumnKind};
    ghost use Rattle.sq_value.specs.declared.value.Value.{Value as Datum};
    ghost use Rattle.sq_value.specs.Order.{row_cmp};

    /// The images of a row, in order.
    ghost images: { Self → List Datum → List (List Datum) };

    /// Whether the operator takes rows of these kinds.
    ghost suits: { Self → List ColumnKind → Type 0 };

    /// The numbers of a row that are tested against the range of BIGINT, in order.
    ghost tested: { Self → List Datum → List ℤ };

    /// Appends the images of the row to `to`. The row is of kinds that suit the operator.
    ///
    /// The answer is `Value` exactly if an item of the row lies outside the range of BIGINT, with the first such number,
    /// and `Memory` when memory runs out. After a refusal `to` is as before.
    fn image(&self, alloc: Global, row: &Row, to: &mut Vec<Row>) -> Result<(), OpFault>
        requires { FitsRow (suits self.now) row.now }
        ensures ok { OnOk result (to.new.items ≡ to.old.items ++ images self.now row.now) }
        ensures in_range { OnOk result (first_not_bigint (tested self.now row.now) ≡ None) }
        ensures outside { (value : ℤ) → result ≡ Err (OpFault.Value value) → first_not_bigint (tested self.now row.now) ≡ Some value }
        ensures refused { OnErr result (to.new.items ≡ to.old.items) };

    /// The extension of the operator to Z-sets takes sums to sums.
    ghost additive: { (op : Self) → IsAdditive (z_sets row_cmp) (z_sets row_cmp) (extension row_cmp (images op)) };
}

/// Keeps the rows on which the condition is True, and no others.
#[derive(Debug, Drop)]
pub struct Keep {
    pub cond: Cond,
}

impl Keep {
    /// An operator of its own that is the same, or `NoMemory` when memory runs out.
    pub fn clone_keep(&self, alloc: Global) -> Result<Keep, NoMemory>
        ensures equal { IfOk result (λ copy. copy ≡ self.now) }
    {
        let cond = self.cond.clone_cond(alloc)?;
        Ok(Keep { cond })
    }

    /// Whether another operator is the same. Takes no memory.
    pub fn is_same(&self, other: &Keep) -> bool
        ensures { IsTrue result ↔ (self.now ≡ other.now) }
    {
        self.cond.is_same(&other.cond)
    }
}

impl Linear for Keep {
    ghost use Rattle.std.specs.Prelude.{[]};
    ghost use Rattle.sq_expr.specs.Fits.{SuitsCond};
    ghost use Rattle.sq_ops.specs.Extensions.{images_are_additive};
    ghost use Rattle.sq_ops.specs.Rows.{kept};

    ghost images = { λ op row. kept op.cond row };

    ghost suits = { λ op kinds. SuitsCond kinds op.cond };

    ghost tested = { λ _ _. [] };

    fn image(&self, alloc: Global, row: &Row, to: &mut Vec<Row>) -> Result<(), OpFault> {
        if let Tri::True = test(&self.cond, row) {
            to.push(row.clone_row(alloc)?)?;
        }
        Ok(())
    }

    ghost additive = { λ op. images_are_additive (kept op.cond) };
}

/// Gives each row one image, the row of the values of the items.
#[derive(Debug, Drop)]
pub struct Project {
    pub items: Items<Expr>,
}

impl Project {
    /// An operator of its own that is the same, or `NoMemory` when memory runs out.
    pub fn clone_project(&self, alloc: Global) -> Result<Project, NoMemory>
        ensures equal { IfOk result (λ copy. copy ≡ self.now) }
    {
        let items = clone_items(alloc, &self.items)?;
        Ok(Project { items })
    }

    /// Whether another operator is the same. Takes no memory.
    pub fn is_same(&self, other: &Project) -> bool
        ensures { IsTrue result ↔ (self.now ≡ other.now) }
    {
        same_items(self.items.as_slice(), other.items.as_slice())
    }
}

impl Linear for Project {
    ghost use Rattle.std.specs.Prelude.{[], ◌∷◌};
    ghost use Rattle.std.specs.List.{AllByRecursion};
    ghost use Rattle.sq_expr.specs.Fits.{Suits};
    ghost use Rattle.sq_ops.specs.Extensions.{images_are_additive};
    ghost use Rattle.sq_ops.specs.Rows.{items_of, numbers_of};

    ghost images = { λ op row. items_of op.items row ∷ [] };

    ghost suits = { λ op kinds. AllByRecursion (Suits kinds) op.items };

    ghost tested = { λ op row. numbers_of op.items row };

    fn image(&self, alloc: Global, row: &Row, to: &mut Vec<Row>) -> Result<(), OpFault> {
        let image = projected_row(alloc, self.items.as_slice(), row)?;
        to.push(image)?;
        Ok(())
    }

    ghost additive = { λ op. images_are_additive (λ row. items_of op.items row ∷ []) };
}

// The row of the values of the items, or the first number among them outside the range of BIGINT.
fn projected_row(alloc: Global, items: &[Expr], row: &Row) -> Result<Row, OpFault>
    requires { AllByRecursion (λ e. Fits e row.now) items.now }
    ensures ok { IfOk result (λ image. image ≡ items_of items.now row.now) }
    ensures in_range { OnOk result (first_not_bigint (numbers_of items.now row.now) ≡ None) }
    ensures outside { (value : ℤ) → result ≡ Err (OpFault.Value value) → first_not_bigint (numbers_of items.now row.now) ≡ Some value }
{
    let mut values = Vec::with_capacity(alloc, items.len())?;
    for expr in items {
        let value = item(alloc, expr, row)?;
        values.push(value)?;
    }
    Ok(Row::of(values))
}

/// Gives each row one image, the row with NULLs behind it.
#[derive(Clone, Copy, Debug, PartialEq, Eq)]
pub struct Pad {
    /// How many NULLs.
    pub nulls: u32,
}

impl Pad {
    /// Whether another operator is the same. Takes no memory.
    pub fn is_same(&self, other: &Pad) -> bool
        ensures { IsTrue result ↔ (self.now ≡ other.now) }
    {
        self.nulls == other.nulls
    }
}

impl Linear for Pad {
    ghost use Rattle.std.specs.Prelude.{[], ◌∷◌, ⊤};
    ghost use Rattle.sq_ops.specs.Extensions.{images_are_additive};
    ghost use Rattle.sq_ops.specs.Rows.{padded};

    ghost images = { λ op row. padded op.nulls row ∷ [] };

    ghost suits = { λ _ _. ⊤ };

    ghost tested = { λ _ _. [] };

    fn image(&self, alloc: Global, row: &Row, to: &mut Vec<Row>) -> Result<(), OpFault> {
        let image = padded_row(alloc, row, self.nulls)?;
        to.push(image)?;
        Ok(())
    }

    ghost additive = { λ op. images_are_additive (λ row. padded op.nulls row ∷ []) };
}

// The row with so many NULLs behind it.
fn padded_row(alloc: Global, row: &Row, nulls: u32) -> Result<Row, NoMemory>
    ensures { IfOk result (λ image. image ≡ padded nulls row.now) }
{
    let mut values = copy_values(alloc, row)?;
    for _ in 0..nulls {
        values.push(Value::Null)?;
    }
    Ok(Row::of(values))
}
