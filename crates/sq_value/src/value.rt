//! Values: NULL, numbers and texts, with their order.
ghost use Rattle.std.specs.Prelude.{◌≡◌, IfOk, refl};
ghost use Rattle.std.specs.Cmp.{eq_by_cmp_equiv, partial_equiv_from_equiv, partial_order_from_agreeing_total};
ghost use Rattle.std.specs.Ordering.{as_partial_cmp, eq_by_cmp};
ghost use Rattle.sq_value.specs.Order.{value_cmp};
ghost use Rattle.sq_value.specs.Hash.{value_writes};
ghost use Rattle.sq_value.specs.OrderLaws.{value_cmp-total, value_eq-same};

use crate::{NoMemory, Str};
use std::alloc::Global;
use std::cmp::Ordering;
use std::hash::{Hash, Hasher};

/// A value of a column.
///
/// NULL comes first, then numbers by size, then texts by their bytes. Rows are kept in this order,
/// in which NULL equals NULL. A comparison with NULL in a condition of SQL is another matter.
#[derive(Debug, Drop)]
pub enum Value {
    /// No value.
    Null,
    /// A whole number.
    Int(i64),
    /// A text.
    Text(Str),
}

impl Value {
    /// A value of its own that is the same, or `NoMemory` if memory runs out.
    pub fn clone_value(&self, alloc: Global) -> Result<Value, NoMemory>
        ensures equal { IfOk result (λ copy. copy ≡ self.now) }
    {
        Ok(match self {
            Value::Null => Value::Null,
            Value::Int(number) => Value::Int(*number),
            Value::Text(text) => Value::Text(text.clone_str(alloc)?),
        })
    }
}

impl PartialEq for Value {
    ghost eq = { eq_by_cmp value_cmp };

    ghost laws = { partial_equiv_from_equiv (eq_by_cmp_equiv value_cmp-total) };

    fn eq(&self, other: &Value) -> bool {
        self.cmp(other) == Ordering::Equal
    }
}

impl Eq for Value {
    ghost laws = { eq_by_cmp_equiv value_cmp-total };
}

impl PartialOrd for Value {
    ghost partial_cmp = { as_partial_cmp value_cmp };

    ghost laws = { partial_order_from_agreeing_total value_cmp value_cmp-total (λ _ _. refl) (λ _ _. refl) };

    fn partial_cmp(&self, other: &Value) -> Option<Ordering> {
        Some(self.cmp(other))
    }
}

impl Ord for Value {
    ghost cmp = { value_cmp };

    ghost total = { value_cmp-total };

    ghost matches_partial_cmp = { λ _ _. refl };

    ghost matches_eq = { λ _ _. refl };

    fn cmp(&self, other: &Value) -> Ordering {
        match (self, other) {
            (Value::Null, Value::Null) => Ordering::Equal,
            (Value::Null, _) => Ordering::Less,
            (_, Value::Null) => Ordering::Greater,
            (Value::Int(a), Value::Int(b)) => a.cmp(b),
            (Value::Int(_), Value::Text(_)) => Ordering::Less,
            (Value::Text(_), Value::Int(_)) => Ordering::Greater,
            (Value::Text(a), Value::Text(b)) => a.cmp(b),
        }
    }
}

impl Hash for Value {
    ghost use Rattle.std.proofs.Common.{ap};

    ghost hash_input = { value_writes };

    ghost respects_eq = { λ x y e. ap value_writes ((value_eq-same x y).0 e) };

    fn hash<H: Hasher>(&self, state: &mut H) {
        match self {
            Value::Null => state.write_u8(0),
            Value::Int(number) => {
                state.write_u8(1);
                number.hash(state);
            }
            Value::Text(text) => {
                state.write_u8(2);
                text.hash(state);
            }
        }
    }
}
