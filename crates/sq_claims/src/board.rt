//! A board, on which the holders of its passes claim the tasks of a level.
ghost use Rattle.std.specs.Prelude.{◌≡◌, ◌≢◌, ℕ, ◌-◌, ◌<◌, ◌≤◌, [], map, length, replicate, All, IfOk, IfSome, IfNone};
ghost use Rattle.std.specs.List.{AllByRecursion};
ghost use Rattle.std.specs.List.Sorted.{IsStrictlyIncreasing};
ghost use Rattle.sq_claims.specs.Claims.{Claimed, total, fresh, claims_one, ends_at};
ghost use Rattle.sq_claims.specs.Hands.{IsSeatOf, Holds, IsCount, IsNewSeat, taken_in};

use crate::rule::{Claims, Deals, Gathers, Hand, Law, Plan, Reads};
use atomic_table::{Seat, Table};
use sq_value::NoMemory;
use std::alloc::Global;
use std::marker::Model;

/// The tasks of a level, by their numbers from 0, of which each is claimed once.
///
/// Contracts see it as its numbers of tasks and passes, and what no other board shares with it. Any
/// number of threads may claim at once, each by a pass of its own.
#[derive(Drop)]
pub struct Board {
    table: Table<u8, Hand, Plan, Law, Global>,
    tasks: u32,
}

impl Model for Board {
    ghost use Rattle.std.specs.Prelude.{◌≡◌, ◌≤◌};
    ghost use Rattle.sq_claims.specs.Claims.{Place};

    ghost Value = { Place };

    ghost view = { λ b. record { tasks = b.tasks; passes = b.table.shared.key.passes; id = b.table.shared.table_id } };

    ghost invariant = { λ b. (b.table.shared.key.tasks ≡ b.tasks) × (1 ≤ b.table.shared.key.passes) × (b.table.shared.table_id.words ≡ 1) };
}

/// The right to claim on one board, by one thread at a time.
///
/// Contracts see it as its board, the numbers that it claimed, in their order, and the word that ended
/// it, if one did.
#[derive(Drop)]
pub struct Pass {
    seat: Seat<u8, Hand>,
    ended: bool,
}

impl Model for Pass {
    ghost use Rattle.std.specs.Prelude.{◌≡◌, ◌≤◌, [], length, if◌then◌else◌};
    ghost use Rattle.std.specs.List.{AllByRecursion};
    ghost use Rattle.std.specs.List.{AllByRecursion};
    ghost use Rattle.std.specs.List.Sorted.{IsStrictlyIncreasing};
    ghost use Rattle.sq_claims.specs.Claims.{Turn};

    ghost Value = { Turn };

    ghost view = { λ p. record {
      board = record { tasks = p.seat.me.0.plan.tasks; passes = p.seat.me.0.plan.passes; id = p.seat.table_id };
      claims = p.seat.me.0.claims;
      late = p.seat.me.0.late;
    } };

    ghost invariant = { λ p. (p.seat.me.1 ≡ []) × (p.seat.me.0.share ≡ 1)
        × (length p.seat.me.0.late ≡ (if p.ended then 1 else 0))
        × AllByRecursion (λ word. p.seat.me.0.plan.tasks ≤ word) p.seat.me.0.late × IsStrictlyIncreasing p.seat.me.0.claims };
}

impl Board {
    /// A board of which no task is claimed, and all its passes.
    pub fn new(alloc: Global, tasks: u32, passes: u32) -> Result<(Board, Vec<Pass>), NoMemory>
        requires passes { (1 ≤ passes) × (passes ≤ 64) }
        ensures tasks { IfOk result (λ r. r.0.tasks ≡ tasks) }
        ensures passes { IfOk result (λ r. r.0.passes ≡ passes) }
        ensures each { IfOk result (λ r. r.1.items ≡ replicate passes (fresh r.0)) }
    {
        let (board, seat) = Board::begun(alloc, tasks, passes)?;
        let all = board.passes(alloc, seat, passes)?;
        Ok((board, all))
    }

    /// Claims the next task, or answers `None` if all are claimed. After a `None` the pass claims no
    /// more.
    ///
    /// This is one atomic step, which finds a word and raises it by one. The word found is the answer
    /// if it is below the number of tasks, and else it ends the pass. It is above all earlier claims of
    /// the pass. Takes no memory and waits for nobody.
    pub fn claim(&self, pass: &mut Pass) -> Option<u32>
        requires board { pass.old.board ≡ self.now }
        ensures some { IfSome result (λ i. (i < self.now.tasks) × (pass.old.late ≡ []) × (pass.new ≡ claims_one pass.old i)) }
        ensures higher { IfSome result (λ i. AllByRecursion (λ c. c < i) pass.old.claims) }
        ensures none { IfNone result ((word : ℕ) × (self.now.tasks ≤ word) × (pass.new ≡ ends_at pass.old word)) }
        ensures ended { pass.old.late ≢ [] → pass.new ≡ pass.old }
    {
        if pass.ended {
            return None;
        }
        let word = self.table.shared.fetch_add::<Claims>(&mut pass.seat, 0, 1);
        if word < self.tasks as u64 {
            Some(word as u32)
        } else {
            pass.ended = true;
            None
        }
    }

    /// How many tasks were claimed, given all passes of the board. These are the tasks from 0 on, and
    /// each stands in the claims of one pass, once. Takes no memory.
    pub fn close(self, passes: Vec<Pass>) -> u32
        requires all { length passes.items ≡ self.passes }
        requires board { All (λ p. p.board ≡ self) passes.items }
        ensures most { result ≤ self.tasks }
        ensures claimed { Claimed result (map (λ p. p.claims) passes.items) }
        ensures ended { 0 < total (λ p. length p.late) passes.items → result ≡ self.tasks }
    {
        let seat = self.gathered(passes);
        self.read(seat)
    }

    // A board, and the seat that has all its shares.
    fn begun(alloc: Global, tasks: u32, passes: u32) -> Result<(Board, Seat<u8, Hand>), NoMemory>
        requires passes { (1 ≤ passes) × (passes ≤ 64) }
        ensures tasks { IfOk result (λ r. r.0.tasks ≡ tasks) }
        ensures passes { IfOk result (λ r. r.0.passes ≡ passes) }
        ensures seat { IfOk result (λ r. IsNewSeat r.0 passes r.1.table_id r.1.me) }
    {
        let plan = Plan { tasks, passes };
        let (table, seat) = Table::of_words(alloc, &[0], &plan)?;
        Ok((Board { table, tasks }, seat))
    }

    // Passes for all shares of a new seat.
    fn passes(
        &self,
        alloc: Global,
        mut seat: Seat<u8, Hand>,
        count: u32,
    ) -> Result<Vec<Pass>, NoMemory>
        requires some { 1 ≤ count }
        requires seat { IsNewSeat self.now count seat.table_id seat.me }
        ensures { IfOk result (λ all. all.items ≡ replicate count (fresh self.now)) }
    {
        let mut all = Vec::with_capacity(alloc, count as usize)?;
        let mut left = count;
        while 1 < left {
            let pass = self.dealt(&mut seat);
            all.push(pass)?;
            left -= 1;
        }
        all.push(Pass { seat, ended: false })?;
        Ok(all)
    }

    // A new pass, which takes one share of the seat.
    fn dealt(&self, seat: &mut Seat<u8, Hand>) -> Pass
        requires seat { IsNewSeat self.now seat.old.me.0.share seat.old.table_id seat.old.me }
        requires share { 2 ≤ seat.old.me.0.share }
        ensures pass { result ≡ fresh self.now }
        ensures seat { IsNewSeat self.now (seat.old.me.0.share - 1) seat.new.table_id seat.new.me }
    {
        let seat = self.table.shared.split_seat::<Deals>(seat);
        Pass { seat, ended: false }
    }

    // A seat takes a pass in.
    fn join(&self, seat: &mut Seat<u8, Hand>, pass: Pass)
        requires seat { seat.old.table_id ≡ self.now.id }
        requires share { 0 < seat.old.me.0.share }
        requires pass { pass.board ≡ self.now }
        ensures seat { seat.new.table_id ≡ seat.old.table_id }
        ensures ascends { IsStrictlyIncreasing pass.claims }
        ensures both { seat.new.me ≡ (taken_in seat.old.me.0 pass, seat.old.me.1) }
    {
        let Pass {
            seat: other,
            ended: _,
        } = pass;
        self.table.shared.join_seat::<Gathers>(seat, other);
    }

    // One seat that took all passes in.
    fn gathered(&self, mut passes: Vec<Pass>) -> Seat<u8, Hand>
        requires some { 0 < length passes.items }
        requires board { All (λ p. p.board ≡ self.now) passes.items }
        ensures { Holds self.now passes.items result.table_id result.me }
    {
        let Some(Pass { mut seat, ended: _ }) = passes.pop() else {
            unreachable!()
        };
        while let Some(pass) = passes.pop() {
            self.join(&mut seat, pass);
        }
        seat
    }

    // Reads how many tasks are claimed, by a seat that took all passes in.
    fn read(&self, mut seat: Seat<u8, Hand>) -> u32
        requires { IsSeatOf self.now self.now.passes seat.table_id seat.me }
        ensures { IsCount self.now seat.me.0.claims seat.me.0.late result }
    {
        let count = self.table.shared.load::<Reads>(&mut seat, 0);
        if count < self.tasks as u64 {
            count as u32
        } else {
            self.tasks
        }
    }
}
