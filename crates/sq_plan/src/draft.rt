//! A circuit in the making, to which nodes are added one by one.
ghost use Rattle.std.specs.Prelude.{◌≡◌, IfOk, Some, false};
ghost use Rattle.sq_circuit.specs.Listed.{is_loose};
ghost use Rattle.sq_circuit.specs.declared.circuit.Part.{Part as Known};
ghost use Rattle.sq_plan.specs.Drafts.{Adds, Appends, CanAdd, IsNext, IsThere, faulty_behind, kinds_of, worth_behind};

use sq_circuit::{Node, Part};
use sq_expr::Kind;
use sq_value::NoMemory;
use sqlite_items::Items;
use std::alloc::Global;

/// The parts so far. New ones belong to the view that is being planned.
#[derive(Debug, Drop)]
pub(crate) struct Draft {
    pub(crate) parts: Vec<Part>,
    pub(crate) view: u32,
}

impl Draft {
    // The kinds of a node's columns. Takes no memory.
    pub(crate) fn kinds(&self, node: u32) -> &[Kind]
        requires { IsThere self.now node }
        ensures { result.now ≡ kinds_of self.now node }
    {
        self.parts[node as usize].kinds.as_slice()
    }

    // Kinds of one's own that are those of a node.
    pub(crate) fn copy_kinds(&self, alloc: Global, node: u32) -> Result<Items<Kind>, NoMemory>
        requires { IsThere self.now node }
        ensures { IfOk result (λ kinds. kinds ≡ kinds_of self.now node) }
    {
        Ok(Items::from_slice(alloc, self.kinds(node))?)
    }

    // Puts a node of the view behind the others, with the kinds of its columns, and answers its number. Its rows need be no list.
    pub(crate) fn append(
        &mut self,
        node: Node,
        kinds: Items<Kind>,
        place: bool,
    ) -> Result<u32, NoMemory>
        requires room { CanAdd 1 self.old }
        requires next { IsNext self.old (record { node = node; kinds = kinds; place = place; owner = Some self.old.view }) }
        ensures { IfOk result (λ i. Appends self.old self.new i (record { node = node; kinds = kinds; place = place; owner = Some self.old.view })) }
    {
        let number = self.parts.len() as u32;
        self.parts.push(Part {
            node,
            kinds,
            place,
            owner: Some(self.view),
        })?;
        Ok(number)
    }

    // Adds a node of the view, with the kinds of its columns, and answers its number. Its rows are those of a list.
    pub(crate) fn add(
        &mut self,
        node: Node,
        kinds: Items<Kind>,
        place: bool,
    ) -> Result<u32, NoMemory>
        requires room { CanAdd 1 self.old }
        requires next { IsNext self.old (record { node = node; kinds = kinds; place = place; owner = Some self.old.view }) }
        requires list { is_loose node place ≡ false }
        ensures adds { let part : Known = record { node = node; kinds = kinds; place = place; owner = Some self.old.view } in
            IfOk result (λ i. Adds 1 self.old self.new i kinds (worth_behind self.old part) (faulty_behind self.old part)) }
        ensures appends { IfOk result (λ i. Appends self.old self.new i (record { node = node; kinds = kinds; place = place; owner = Some self.old.view })) }
    {
        self.append(node, kinds, place)
    }
}
