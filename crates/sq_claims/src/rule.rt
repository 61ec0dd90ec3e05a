//! The rule of the board's word, and the kinds of step on it. All of it exists in proofs alone.
use atomic_table::{Join, Play, Split, TableRule};
use std::collections::LinkedList;

/// How many tasks a board has, and how many passes.
#[derive(Clone, Copy)]
pub struct Plan {
    pub tasks: u32,
    pub passes: u32,
}

/// What a seat knows: the board's plan, for how many passes it stands, the numbers that it claimed,
/// and the words that it found too late. No value of it is made.
pub struct Hand {
    pub plan: Plan,
    pub share: u64,
    pub claims: LinkedList<u32>,
    pub late: LinkedList<u64>,
}

pub struct Law;

impl TableRule<u8, Hand, Plan> for Law {
    ghost use Rattle.sq_claims.specs.Hands.{Kept, first_hand};

    ghost holds = { Kept };

    ghost first = { first_hand };
}

/// A claim.
pub struct Claims;

impl Play<u8, Hand> for Claims {
    ghost use Rattle.sq_claims.specs.Hands.{Takes};

    ghost then = { Takes };
}

/// A look at the end.
pub struct Reads;

impl Play<u8, Hand> for Reads {
    ghost use Rattle.sq_claims.specs.Hands.{Looks};

    ghost then = { Looks };
}

/// A seat that gives one share away.
pub struct Deals;

impl Split<Hand> for Deals {
    ghost use Rattle.sq_claims.specs.Hands.{left_hand, right_hand};

    ghost left = { left_hand };

    ghost right = { right_hand };
}

/// A seat that takes another in.
pub struct Gathers;

impl Join<Hand> for Gathers {
    ghost use Rattle.sq_claims.specs.Hands.{both_hands, spent_hand};

    ghost both = { both_hands };

    ghost spent = { spent_hand };
}
