//! Catalogues: the relations of a program by name and by number.
ghost use Rattle.std.specs.Prelude.{◌≡◌, ◌<◌, ◌-◌, ◌^◌, ◌++◌, ◌∷◌, [], Some, length, slice_get, IsTrue, OnOk, OnErr, Err, is_some, true, false};
ghost use Rattle.sq_catalog.specs.Names.{is_named, place_of, names_differ};

use crate::{CatalogFault, Relation};
use indexmap::IndexMap;
use std::alloc::Global;
use std::marker::Model;

/// The relations of a program in order of creation. No two have the same name.
#[derive(Debug, Drop)]
pub struct Catalog {
    // By name.
    relations: IndexMap<String, Relation>,
}

impl Model for Catalog {
    ghost use Rattle.std.specs.Prelude.{List};
    ghost use Rattle.sq_catalog.specs.declared.relation.Relation.{Relation as Created};
    ghost use Rattle.sq_catalog.specs.Names.{created, IsByName};

    ghost Value = { List Created };

    ghost view = { λ c. created c.relations.entries };

    ghost invariant = { λ c. IsByName c.relations.entries };
}

impl Catalog {
    /// A catalogue with no relation. Takes no memory.
    pub fn new(alloc: Global) -> Catalog
        ensures { result ≡ [] }
    {
        Catalog {
            relations: IndexMap::new(alloc),
        }
    }

    /// Puts a relation behind the others.
    ///
    /// The catalogue has fewer than 2^32 - 1 relations. The answer is `DuplicateName` exactly if a relation has this name
    /// already, and `Memory` if memory runs out; then the catalogue is as it was, and the relation is let go.
    pub fn add(&mut self, alloc: Global, relation: Relation) -> Result<(), CatalogFault>
        requires few { length self.old < 2 ^ 32 - 1 }
        ensures ok { OnOk result (self.new ≡ self.old ++ relation ∷ []) }
        ensures new_name { OnOk result (is_named relation.name self.old ≡ false) }
        ensures duplicate { result ≡ Err CatalogFault.DuplicateName → is_named relation.name self.old ≡ true }
        ensures present { is_named relation.name self.old ≡ true → result ≡ Err CatalogFault.DuplicateName }
        ensures err { OnErr result (self.new ≡ self.old) }
    {
        if self.find(relation.name.as_str()).is_some() {
            return Err(CatalogFault::DuplicateName);
        }
        let name = String::from_str(alloc, relation.name.as_str())?;
        self.relations.insert(name, relation)?;
        Ok(())
    }

    /// The place of the relation with this name, counted from 0. Takes no memory.
    pub fn find(&self, name: &str) -> Option<u32>
        ensures place { result ≡ place_of name.now self.now }
        ensures found { is_some result ≡ is_named name.now self.now }
    {
        Some(self.relations.get_index_of(name)? as u32)
    }

    /// The number of relations. Takes no memory.
    pub fn len(&self) -> u32
        ensures len { result ≡ length self.now }
        ensures named { IsTrue (names_differ self.now) }
    {
        self.relations.len() as u32
    }

    /// The relation at place `i`, counted from 0 in order of creation. Takes no memory.
    pub fn at(&self, i: u32) -> &Relation
        requires { i < length self.now }
        ensures { slice_get self.now i ≡ Some result.now }
    {
        &self.relations[i as usize]
    }
}
