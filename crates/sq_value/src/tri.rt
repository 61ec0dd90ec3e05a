//! Truth values, with AND, OR and NOT.
ghost use Rattle.std.specs.Prelude.{◌≡◌};
ghost use Rattle.sq_value.specs.Truth.{least, greatest, opposite, is_true};

/// A truth value of SQL. NULL in a comparison makes it unknown.
///
/// The order is False, then Unknown, then True (`laws::order_of_truths`).
#[derive(Clone, Copy, Debug, Drop, PartialEq, Eq, PartialOrd, Ord, Hash)]
pub enum Tri {
    /// It does not hold.
    False,
    /// It is not known whether it holds.
    Unknown,
    /// It holds.
    True,
}

impl Tri {
    /// The conjunction of the two, which is the least.
    pub fn and(self, other: Tri) -> Tri
        ensures least { result ≡ least self other }
    {
        match (self, other) {
            (Tri::False, _) | (_, Tri::False) => Tri::False,
            (Tri::Unknown, _) | (_, Tri::Unknown) => Tri::Unknown,
            (Tri::True, Tri::True) => Tri::True,
        }
    }

    /// The disjunction of the two, which is the greatest.
    pub fn or(self, other: Tri) -> Tri
        ensures greatest { result ≡ greatest self other }
    {
        match (self, other) {
            (Tri::True, _) | (_, Tri::True) => Tri::True,
            (Tri::Unknown, _) | (_, Tri::Unknown) => Tri::Unknown,
            (Tri::False, Tri::False) => Tri::False,
        }
    }

    /// The negation: True and False change places, and Unknown stays.
    pub fn not(self) -> Tri
        ensures opposite { result ≡ opposite self }
    {
        match self {
            Tri::False => Tri::True,
            Tri::Unknown => Tri::Unknown,
            Tri::True => Tri::False,
        }
    }

    /// Whether it is True. A condition holds for a row if this is so.
    pub fn is_true(self) -> bool
        ensures { result ≡ is_true self }
    {
        match self {
            Tri::True => true,
            Tri::False | Tri::Unknown => false,
        }
    }
}
