//! Rows: lists of values, with their order. Short ones hold their values in place, and long ones can be shared.
ghost use Rattle.std.specs.Prelude.{◌≡◌, ◌<◌, length, slice_get, Some, IfOk, refl};
ghost use Rattle.std.specs.Cmp.{eq_by_cmp_equiv, partial_equiv_from_equiv, partial_order_from_agreeing_total};
ghost use Rattle.std.specs.Hash as fed;
ghost use Rattle.std.specs.Ordering.{as_partial_cmp, eq_by_cmp};
ghost use Rattle.sq_value.specs.Order.{row_cmp};
ghost use Rattle.sq_value.specs.Hash.{value_writes};
ghost use Rattle.sq_value.specs.OrderLaws.{row_cmp-total, row_eq-same};

use crate::{NoMemory, Value};
use std::alloc::Global;
use std::cmp::Ordering;
use std::hash::{Hash, Hasher};
use std::marker::Model;
use std::sync::Arc;

/// A row of a table or a view. Contracts see it as the list of its values, and its order and
/// equality go by these column by column, a proper prefix first.
///
/// One to three values stand in the row itself. More are in memory of their own, which `share` lets copies share.
#[derive(Debug, Drop)]
pub struct Row {
    store: Store,
}

/// Where the values of a row stand.
#[derive(Debug, Drop)]
enum Store {
    One([Value; 1]),
    Two([Value; 2]),
    Three([Value; 3]),
    Owned(Vec<Value>),
    Shared(Arc<Vec<Value>, Global>),
}

impl Model for Row {
    ghost use Rattle.std.specs.Prelude.{List};
    ghost use Rattle.sq_value.specs.declared.value.Value.{Value as Datum};
    ghost use Rattle.sq_value.specs.Stored.{stored};

    ghost Value = { List Datum };

    ghost view = { λ r. stored r.store };
}

impl Row {
    /// The row of these values, in their order. Takes no memory.
    pub fn of(values: Vec<Value>) -> Row
        ensures { result ≡ values.items }
    {
        let store = match <[Value; 1]>::try_from(values) {
            Ok(one) => Store::One(one),
            Err(values) => match <[Value; 2]>::try_from(values) {
                Ok(two) => Store::Two(two),
                Err(values) => match <[Value; 3]>::try_from(values) {
                    Ok(three) => Store::Three(three),
                    Err(values) => Store::Owned(values),
                },
            },
        };
        Row { store }
    }

    /// How many values the row has. Takes no memory.
    pub fn len(&self) -> usize
        ensures { result ≡ length self.now }
    {
        self.values().len()
    }

    /// The value at place `i`, counted from 0, lent. Takes no memory.
    pub fn at(&self, i: usize) -> &Value
        requires { i < length self.now }
        ensures { slice_get self.now i ≡ Some result.now }
    {
        &self.values()[i]
    }

    /// All values, in their order.
    pub(crate) fn values(&self) -> &[Value]
        ensures { result.now ≡ self.now }
    {
        match &self.store {
            Store::One(one) => one,
            Store::Two(two) => two,
            Store::Three(three) => three,
            Store::Owned(values) => values,
            Store::Shared(values) => values,
        }
    }

    /// A row of its own with the same values, or `NoMemory` if memory runs out.
    ///
    /// Values in place, and those of a shared row, take no memory, but for the 2^63rd row that shares them.
    pub fn clone_row(&self, alloc: Global) -> Result<Row, NoMemory>
        ensures equal { IfOk result (λ copy. copy ≡ self.now) }
    {
        let store = match &self.store {
            Store::One([a]) => Store::One([a.clone_value(alloc)?]),
            Store::Two([a, b]) => Store::Two([a.clone_value(alloc)?, b.clone_value(alloc)?]),
            Store::Three([a, b, c]) => Store::Three([
                a.clone_value(alloc)?,
                b.clone_value(alloc)?,
                c.clone_value(alloc)?,
            ]),
            Store::Owned(values) => Store::Owned(copy_values(alloc, values)?),
            Store::Shared(values) => match Arc::try_clone(values) {
                Ok(shared) => Store::Shared(shared),
                // The count of the rows that share the values is full.
                Err(_) => Store::Owned(copy_values(alloc, values)?),
            },
        };
        Ok(Row { store })
    }

    /// The same row, ready to be copied often: copies of it share its values, and take no memory for them.
    ///
    /// Rows of at most three values stay as they are. `NoMemory` if memory runs out, and the row is let go then.
    pub fn share(self, alloc: Global) -> Result<Row, NoMemory>
        ensures same { IfOk result (λ row. row ≡ self) }
    {
        let store = match self.store {
            Store::Owned(values) => Store::Shared(Arc::new(alloc, values)?),
            store => store,
        };
        Ok(Row { store })
    }
}

fn copy_values(alloc: Global, values: &[Value]) -> Result<Vec<Value>, NoMemory>
    ensures equal { IfOk result (λ copy. copy.items ≡ values.now) }
{
    let mut copy = Vec::with_capacity(alloc, values.len())?;
    for value in values {
        copy.push(value.clone_value(alloc)?)?;
    }
    Ok(copy)
}

impl PartialEq for Row {
    ghost eq = { eq_by_cmp row_cmp };

    ghost laws = { partial_equiv_from_equiv (eq_by_cmp_equiv row_cmp-total) };

    #[tactic(auto, using(crate::specs::OrderLaws::row_ties))]
    fn eq(&self, other: &Row) -> bool {
        self.values() == other.values()
    }
}

impl Eq for Row {
    ghost laws = { eq_by_cmp_equiv row_cmp-total };
}

impl PartialOrd for Row {
    ghost partial_cmp = { as_partial_cmp row_cmp };

    ghost laws = { partial_order_from_agreeing_total row_cmp row_cmp-total (λ _ _. refl) (λ _ _. refl) };

    fn partial_cmp(&self, other: &Row) -> Option<Ordering> {
        Some(self.cmp(other))
    }
}

impl Ord for Row {
    ghost cmp = { row_cmp };

    ghost total = { row_cmp-total };

    ghost matches_partial_cmp = { λ _ _. refl };

    ghost matches_eq = { λ _ _. refl };

    fn cmp(&self, other: &Row) -> Ordering {
        self.values().cmp(other.values())
    }
}

impl Hash for Row {
    ghost use Rattle.std.proofs.Common.{ap};

    ghost hash_input = { fed.slice value_writes };

    ghost respects_eq = { λ r s e. ap (fed.slice value_writes) ((row_eq-same r s).0 e) };

    fn hash<H: Hasher>(&self, state: &mut H) {
        self.values().hash(state);
    }
}
