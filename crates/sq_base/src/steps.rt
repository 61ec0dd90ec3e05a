//! Counters of steps, which stand still at the last number of 64 bits.
ghost use Rattle.std.specs.Prelude.{◌≡◌, Some, None, is_some, true};
ghost use Rattle.sq_base.specs.Causes.{raised};
ghost use Rattle.sq_base.specs.Counters.{together};

use std::marker::Model;

/// A counter of steps, over a ledger that it keeps for whoever began it.
///
/// Contracts see how many steps it counted, and its ledger if it came from `begin`. It can't be let go: one
/// from `begin` goes to `end` alone, and one from `split` to `merge` alone, so no step is lost on the way. The
/// count stands still at 2^64 - 1. No call takes memory.
#[derive(Debug)]
pub struct Steps<L> {
    count: u64,
    ledger: Option<L>,
}

impl<L> Model for Steps<L> {
    ghost use Rattle.sq_base.specs.Counters.{Counter};

    ghost Value = { Counter L };

    ghost view = { λ s. record { count = s.count; ledger = s.ledger } };
}

impl<L> Steps<L> {
    /// A counter that stands at 0.
    pub fn begin(ledger: L) -> Steps<L>
        ensures { result ≡ record { count = 0; ledger = Some ledger } }
    {
        Steps {
            count: 0,
            ledger: Some(ledger),
        }
    }

    /// How many steps were counted.
    pub fn count(&self) -> u64
        ensures { result ≡ self.now.count }
    {
        self.count
    }

    /// Counts one step.
    pub fn tick(&mut self)
        ensures count { self.new.count ≡ raised self.old.count }
        ensures ledger { self.new.ledger ≡ self.old.ledger }
    {
        self.count = self.count.saturating_add(1);
    }

    /// A counter that stands at 0, for steps that are to be merged into this one.
    pub fn split(&mut self) -> Steps<L>
        ensures part { result ≡ record { count = 0; ledger = None } }
        ensures kept { self.new ≡ self.old }
    {
        Steps {
            count: 0,
            ledger: None,
        }
    }

    /// Adds the steps of a counter that came from `split`.
    pub fn merge(&mut self, other: Steps<L>)
        requires split { other.ledger ≡ None }
        ensures count { self.new.count ≡ together self.old.count other.count }
        ensures ledger { self.new.ledger ≡ self.old.ledger }
    {
        let Steps { count, ledger } = other;
        self.count = self.count.saturating_add(count);
        if let Some(_) = ledger {
            unreachable!()
        }
    }

    /// The ledger of a counter that came from `begin`.
    pub fn end(self) -> L
        requires begun { is_some self.ledger ≡ true }
        ensures { self.ledger ≡ Some result }
    {
        let Steps { count: _, ledger } = self;
        match ledger {
            Some(ledger) => ledger,
            None => unreachable!(),
        }
    }
}
