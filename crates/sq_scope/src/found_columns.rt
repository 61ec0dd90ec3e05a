//! What a reference finds among the columns of some sources: how many columns, and the number of the first.
ghost use Rattle.std.specs.Prelude.{◌≡◌, ◌<◌, ◌^◌, ◌++◌, ℕ, List, option_to_list};
ghost use Rattle.std.specs.List.{flat_map};
ghost use Rattle.sq_scope.specs.NamesFound.{Sees, found_of};
ghost use Rattle.sq_scope.specs.NamesIndex.{IsRising, found_in, numbers_before};

use crate::index::{Place, number_before, places_before};

/// How many columns a reference finds.
#[derive(Clone, Copy, Debug, PartialEq, Eq)]
pub enum Found {
    Nothing,
    One,
    Several,
}

impl Found {
    // So many columns.
    pub fn of(count: usize) -> Found
        ensures { result ≡ found_of count }
    {
        match count {
            0 => Found::Nothing,
            1 => Found::One,
            _ => Found::Several,
        }
    }
}

// How many columns a reference finds, and the number of the first; 0 if it finds none.
#[derive(Clone, Copy, Debug)]
pub struct Sight {
    pub count: usize,
    pub first: u32,
}

impl Sight {
    // The places in the first sources.
    pub fn of(places: &[Place], sources: usize) -> Sight
        requires { IsRising places.now }
        ensures { Sees result (numbers_before sources places.now) }
    {
        let count = places_before(places, sources);
        match places.first() {
            None => Sight { count, first: 0 },
            Some(place) => Sight {
                count,
                first: if place.source < sources {
                    place.number
                } else {
                    0
                },
            },
        }
    }

    // The places in those of these sources that are among the first.
    pub fn among(places: &[Place], named: &[usize], sources: usize) -> Sight
        requires { IsRising places.now }
        ensures { Sees result (flat_map (found_in sources places.now) named.now) }
    {
        let mut sight = Sight { count: 0, first: 0 };
        for source in named {
            sight = sight.with(number_before(places, *source, sources));
        }
        sight
    }

    // With one more column, if there is one.
    fn with(self, number: Option<u32>) -> Sight
        requires { self.count < 2 ^ 63 }
        ensures { (ns : List ℕ) → Sees self ns → Sees result (ns ++ option_to_list number) }
    {
        match number {
            None => self,
            Some(number) if self.count == 0 => Sight {
                count: 1,
                first: number,
            },
            Some(_) => Sight {
                count: self.count + 1,
                first: self.first,
            },
        }
    }
}
