//! Texts in UTF-8, with their order. Copies of a text share its bytes.
ghost use Rattle.std.specs.Prelude.{◌≡◌, IfOk, refl};
ghost use Rattle.std.specs.Cmp.{eq_by_cmp_equiv, partial_equiv_from_equiv, partial_order_from_agreeing_total};
ghost use Rattle.std.specs.Hash as fed;
ghost use Rattle.std.specs.Ordering.{as_partial_cmp, eq_by_cmp};
ghost use Rattle.sq_value.specs.Order.{text_cmp};
ghost use Rattle.sq_value.specs.OrderLaws.{text_cmp-total, text_eq-same};

use crate::NoMemory;
use std::alloc::Global;
use std::cmp::Ordering;
use std::convert::AsStr;
use std::hash::{Hash, Hasher};
use std::marker::Model;
use std::sync::ArcStr;

/// A text in UTF-8, owned. Contracts see it as the list of its bytes, and its order and equality
/// go by these bytes, a proper prefix first. The bytes are in memory that its copies share.
#[derive(Debug, Drop)]
pub struct Str {
    text: ArcStr<Global>,
}

impl Model for Str {
    ghost use Rattle.std.specs.Prelude.{ℕ, List};
    ghost use Rattle.std.specs.Arc.{arc_str_bytes};

    ghost Value = { List ℕ };

    ghost view = { λ s. arc_str_bytes s.text };
}

impl Str {
    /// A copy of `text`, or `NoMemory` if memory runs out.
    pub fn of(alloc: Global, text: &str) -> Result<Str, NoMemory>
        ensures equal { IfOk result (λ copy. copy ≡ text.now) }
    {
        let text = ArcStr::from_str(alloc, text)?;
        Ok(Str { text })
    }

    /// The text, lent. Takes no memory.
    pub fn as_str(&self) -> &str
        ensures { result.now ≡ self.now }
    {
        self.text.as_str()
    }

    /// A text of its own with the same bytes, or `NoMemory` if memory runs out.
    ///
    /// The two share the bytes, and this takes no memory, but for the 2^63rd text that shares them.
    pub fn clone_str(&self, alloc: Global) -> Result<Str, NoMemory>
        ensures equal { IfOk result (λ copy. copy ≡ self.now) }
    {
        match self.text.clone() {
            Ok(text) => Ok(Str { text }),
            // The count of the texts that share the bytes is full.
            Err(_) => Str::of(alloc, self.as_str()),
        }
    }
}

impl AsStr for Str {
    ghost text = { λ s. s };

    fn as_str(&self) -> &str {
        Str::as_str(self)
    }
}

impl PartialEq for Str {
    ghost eq = { eq_by_cmp text_cmp };

    ghost laws = { partial_equiv_from_equiv (eq_by_cmp_equiv text_cmp-total) };

    #[tactic(auto, using(crate::specs::OrderLaws::text_ties))]
    fn eq(&self, other: &Str) -> bool {
        self.as_str() == other.as_str()
    }
}

impl Eq for Str {
    ghost laws = { eq_by_cmp_equiv text_cmp-total };
}

impl PartialOrd for Str {
    ghost partial_cmp = { as_partial_cmp text_cmp };

    ghost laws = { partial_order_from_agreeing_total text_cmp text_cmp-total (λ _ _. refl) (λ _ _. refl) };

    fn partial_cmp(&self, other: &Str) -> Option<Ordering> {
        Some(self.cmp(other))
    }
}

impl Ord for Str {
    ghost cmp = { text_cmp };

    ghost total = { text_cmp-total };

    ghost matches_partial_cmp = { λ _ _. refl };

    ghost matches_eq = { λ _ _. refl };

    fn cmp(&self, other: &Str) -> Ordering {
        self.as_str().cmp(other.as_str())
    }
}

impl Hash for Str {
    ghost use Rattle.std.proofs.Common.{ap};

    ghost hash_input = { fed.str };

    ghost respects_eq = { λ s t e. ap fed.str ((text_eq-same s t).0 e) };

    fn hash<H: Hasher>(&self, state: &mut H) {
        self.as_str().hash(state);
    }
}
