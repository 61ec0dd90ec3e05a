//! The columns of GROUP BY by their numbers, and the first place of each.
ghost use Rattle.std.specs.Prelude.{◌≡◌, ◌<◌, ◌^◌, ◌==◌, ℕ, nat_eq, not, if◌then◌else◌, IfOk, OnOk, length, map, position};
ghost use Rattle.std.specs.HashMap.{get};
ghost use Rattle.std.specs.List.{list_any};
ghost use Rattle.std.specs.Option.{option_or};
ghost use Rattle.sq_typed.specs.Scopes.{number_of};

use crate::sources_row::Row;
use sq_ast::ColRef;
use sq_value::NoMemory;
use sqlite_items::Items;
use std::alloc::Global;
use std::collections::HashMap;

/// The columns of GROUP BY, by their numbers.
#[derive(Drop)]
pub struct Keys {
    pub numbers: Items<u32>,
    // The first place of each number.
    places: HashMap<u32, u32>,
    ghost placed: { (n : ℕ) → get nat_eq places n ≡ position (λ k. k == n) numbers },
}

impl Keys {
    /// The columns of GROUP BY, which are fewer than 2^32, or `NoMemory` if memory runs out.
    pub fn of(alloc: Global, row: &Row, group: &[ColRef]) -> Result<Keys, NoMemory>
        requires few { length group.now < 2 ^ 32 }
        ensures { IfOk result (λ keys. keys.numbers ≡ map (number_of row.now) group.now) }
    {
        let mut numbers = Items::new(alloc);
        let mut places = HashMap::new(alloc);
        for r in group {
            let number = row.number_of(r);
            let place = numbers.len() as u32;
            keep_first(&mut places, number, place)?;
            numbers.push(number)?;
        }
        Ok(Keys { numbers, places })
    }

    /// The first place of the column with this number. Takes no memory.
    pub fn place_of(&self, number: u32) -> Option<u32>
        ensures { result ≡ position (λ k. k == number) self.now.numbers }
    {
        self.places.get(&number).copied()
    }

    /// Whether the column with this number is none of them. Takes no memory.
    pub fn lacks(&self, number: u32) -> bool
        ensures { result ≡ not (list_any (λ k. k == number) self.now.numbers) }
    {
        match self.place_of(number) {
            Some(_) => false,
            None => true,
        }
    }

    /// The numbers of the columns. Takes no memory.
    pub fn into_numbers(self) -> Items<u32>
        ensures { result ≡ self.numbers }
    {
        let Keys { numbers, places: _ } = self;
        numbers
    }
}

// Puts the place at the number, if it has none.
fn keep_first(places: &mut HashMap<u32, u32>, number: u32, place: u32) -> Result<(), NoMemory>
    ensures { OnOk result ((n : ℕ) → get nat_eq places.new n ≡ option_or (get nat_eq places.old n) (if number == n then Some place else None)) }
{
    places.entry(number)?.or_insert(place);
    Ok(())
}
