//! The sources of a FROM, and what references find among their columns.
ghost use Rattle.std.specs.Prelude.{◌≡◌, ◌<◌, ◌+◌, ◌^◌, [], get_or, map, take, length, bytes_eq, IfOk};
ghost use Rattle.std.specs.List.{list_any};
ghost use Rattle.sq_scope.specs.NamesFound.{Sees, columns_of, found_of};
ghost use Rattle.sq_scope.specs.NamesIndex.{named_from};
ghost use Rattle.sq_typed.specs.Scopes.{columns_in, kinds_in, number_of, places};

use crate::found_columns::{Found, Sight};
use crate::index::{Index, indexed, places_of, sources_of};
use crate::layout::{Layout, laid_out};
use sq_ast::ColRef;
use sq_catalog::Column;
use sq_expr::Kind;
use sq_value::{NoMemory, Str};
use sqlite_items::Items;
use std::alloc::Global;
use std::marker::Model;

/// The columns of a source: those of a relation, lent, or those of a query.
#[derive(Debug, Drop)]
pub enum Columns<'a> {
    Lent(&'a [Column]),
    Owned(Items<Column>),
}

impl<'a> Columns<'a> {
    /// The columns in order. Takes no memory.
    pub fn as_slice(&self) -> &[Column]
        ensures { result.now ≡ columns_of self.now }
    {
        match self {
            Columns::Lent(columns) => columns,
            Columns::Owned(columns) => columns.as_slice(),
        }
    }
}

/// A source of a FROM.
#[derive(Debug, Drop)]
pub struct Source<'a> {
    name: &'a Str,
    columns: Columns<'a>,
}

impl<'a> Model for Source<'a> {
    ghost use Rattle.sq_typed.specs.Scopes.{Named};

    ghost Value = { Named };

    ghost use Rattle.sq_scope.specs.NamesFound.{columns_of};

    ghost view = { λ s. record { name = s.name.now; columns = columns_of s.columns } };
}

impl<'a> Source<'a> {
    /// A source with this name. Takes no memory.
    pub fn new(name: &'a Str, columns: Columns<'a>) -> Source<'a>
        ensures { result ≡ record { name = name.now; columns = columns_of columns.entry } }
    {
        Source { name, columns }
    }

    /// The name by which references mean the source. Takes no memory.
    pub fn name(&self) -> &'a Str
        ensures { result.now ≡ self.now.name }
    {
        self.name
    }

    /// Its columns in order. Takes no memory.
    pub fn columns(&self) -> &[Column]
        ensures { result.now ≡ self.now.columns }
    {
        self.columns.as_slice()
    }
}

/// The sources of a FROM in order, and which columns references find in them.
///
/// Asked about a number of sources, it speaks of so many of the first ones.
#[derive(Debug, Drop)]
pub struct Scope<'a> {
    sources: Vec<Source<'a>>,
    layout: Layout,
    index: Index,
}

impl<'a> Model for Scope<'a> {
    ghost use Rattle.sq_typed.specs.Scopes.{Scope as Sources};
    ghost use Rattle.sq_scope.specs.NamesFound.{IsLaidOut};
    ghost use Rattle.sq_scope.specs.NamesIndex.{IsIndexed};

    ghost Value = { Sources };

    ghost view = { λ s. s.sources.items };

    ghost invariant = { λ s. IsLaidOut s.sources.items s.layout × IsIndexed s.sources.items s.index };
}

impl<'a> Scope<'a> {
    /// A scope of these sources, which have fewer than 2^32 columns in all. The answer is `NoMemory` if memory runs out.
    pub fn of(alloc: Global, sources: Vec<Source<'a>>) -> Result<Scope<'a>, NoMemory>
        requires few { length (columns_in sources.items) < 2 ^ 32 }
        ensures { IfOk result (λ scope. scope ≡ sources.entry.items) }
    {
        let layout = laid_out(alloc, sources.as_slice())?;
        let index = indexed(alloc, sources.as_slice(), &layout)?;
        Ok(Scope {
            sources,
            layout,
            index,
        })
    }

    /// The number of sources. Takes no memory.
    pub fn len(&self) -> usize
        ensures { result ≡ length self.now }
    {
        self.sources.len()
    }

    /// The sources in order. Takes no memory.
    pub fn sources(&self) -> &[Source<'a>]
        ensures { result.now ≡ self.now }
    {
        self.sources.as_slice()
    }

    /// The kinds of the columns of so many sources. Takes no memory.
    pub fn kinds(&self, sources: usize) -> &[Kind]
        ensures { result.now ≡ kinds_in (take sources self.now) }
    {
        let end = self.layout.begins[sources.min(self.sources.len())];
        &self.layout.kinds[..end]
    }

    /// Where the columns of the source at this place begin among those of all sources. Their numbers fit. Takes no memory.
    pub fn begin(&self, place: usize) -> usize
        requires { place < length self.now }
        ensures begin { result ≡ length (columns_in (take place self.now)) }
        ensures few { result + length (get_or (map (λ s. s.columns) self.now) place []) < 2 ^ 32 }
    {
        self.layout.begins[place]
    }

    /// The number of columns of all sources. Takes no memory.
    pub fn width(&self) -> usize
        ensures { result ≡ length (columns_in self.now) }
    {
        self.layout.kinds.len()
    }

    /// The places of the sources with this name, in order. Takes no memory.
    pub fn named(&self, name: &Str) -> &[usize]
        ensures { result.now ≡ named_from 0 self.now name.now }
    {
        sources_of(&self.index.by_name, name.as_str())
    }

    /// Whether a source has this name. Takes no memory.
    pub fn has_source(&self, name: &Str) -> bool
        ensures { result ≡ list_any (λ s. bytes_eq name.now s.name) self.now }
    {
        !self.named(name).is_empty()
    }

    /// The number of the column that the reference means among the columns of so many sources: the first that it finds, and
    /// 0 if it finds none. Takes no memory.
    pub fn number_of(&self, sources: usize, r: &ColRef) -> u32
        ensures { result ≡ number_of (take sources self.now) r.now }
    {
        self.sight(sources, r).first
    }

    /// How many columns the reference finds among those of so many sources. Takes no memory.
    pub fn found(&self, sources: usize, r: &ColRef) -> Found
        ensures { result ≡ found_of (length (places (take sources self.now) r.now)) }
    {
        Found::of(self.sight(sources, r).count)
    }

    // What the reference finds among the columns of so many sources.
    fn sight(&self, sources: usize, r: &ColRef) -> Sight
        ensures { Sees result (places (take sources self.now) r.now) }
    {
        let index = &self.index;
        let places = places_of(&index.by_column, r.name.as_str());
        match &r.qualifier {
            None => Sight::of(places, sources),
            Some(name) => Sight::among(places, sources_of(&index.by_name, name.as_str()), sources),
        }
    }
}
