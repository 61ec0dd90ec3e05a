//! Where the sources and columns of each name stand.
ghost use Rattle.std.specs.Prelude.{◌≡◌, ◌<◌, ◌+◌, ◌^◌, ◌++◌, ◌&&◌, not, ◌∷◌, [], length, bytes_eq, if◌then◌else◌, option_to_list, position, OnOk, IfOk};
ghost use Rattle.std.specs.String.{string_bytes};
ghost use Rattle.std.specs.List.{AllByRecursion};
ghost use Rattle.std.specs.Option.{option_copied};
ghost use Rattle.sq_scope.specs.NamesFound.{IsLaidOut};
ghost use Rattle.sq_scope.specs.NamesIndex.{IsIndexed, IsRising, ends_in, found_in, named_from, named_in, number_if_at, numbers_at, numbers_before, spot_at, spots_from, spots_of};
ghost use Rattle.sq_typed.specs.Scopes.{Text};

use crate::Source;
use crate::layout::Layout;
use sq_catalog::Column;
use sq_value::NoMemory;
use sqlite_items::at;
use std::alloc::Global;
use std::collections::BTreeMap;

// Where to find sources and columns by their names.
#[derive(Debug, Drop)]
pub struct Index {
    // The sources of each name, in order.
    pub by_name: BTreeMap<String, Vec<usize>>,
    // The columns of each name, in order; of those in one source the first.
    pub by_column: BTreeMap<String, Vec<Place>>,
}

// An index of these sources.
pub fn indexed(alloc: Global, sources: &[Source], layout: &Layout) -> Result<Index, NoMemory>
    requires { IsLaidOut sources.now layout.now }
    ensures { IfOk result (λ index. IsIndexed sources.now index) }
{
    let by_name = named(alloc, sources)?;
    let by_column = placed(alloc, sources, layout)?;
    Ok(Index { by_name, by_column })
}

fn named(alloc: Global, sources: &[Source]) -> Result<BTreeMap<String, Vec<usize>>, NoMemory>
    ensures { IfOk result (λ by_name. (q : Text) → named_in by_name q ≡ named_from 0 sources.now q) }
{
    let mut by_name = BTreeMap::new(alloc);
    for i in 0..sources.len() {
        let name = String::from_str(alloc, sources[i].name().as_str())?;
        add_source(&mut by_name, name, i)?;
    }
    Ok(by_name)
}

fn placed(
    alloc: Global,
    sources: &[Source],
    layout: &Layout,
) -> Result<BTreeMap<String, Vec<Place>>, NoMemory>
    requires { IsLaidOut sources.now layout.now }
    ensures { IfOk result (λ by_column. (q : Text) → spots_of by_column q ≡ spots_from 0 0 sources.now q) }
{
    let mut by_column = BTreeMap::new(alloc);
    for i in 0..sources.len() {
        let begin = layout.begins[i];
        add_columns(alloc, &mut by_column, i, begin, sources[i].columns())?;
    }
    Ok(by_column)
}

// A column among those of the sources.
#[derive(Clone, Copy, Debug)]
pub struct Place {
    // The number of its source.
    pub source: usize,
    // Its number among the columns of all sources.
    pub number: u32,
}

// Puts a place behind those of the name.
fn add_place(
    places: &mut BTreeMap<String, Vec<Place>>,
    name: String,
    place: Place,
) -> Result<(), NoMemory>
    ensures { OnOk result ((q : Text) → spots_of places.new q ≡ spots_of places.old q ++ (if bytes_eq q (string_bytes name) then place ∷ [] else [])) }
{
    places.entry(name)?.or_default().push(place)?;
    Ok(())
}

// Puts a source behind those of the name.
fn add_source(
    sources: &mut BTreeMap<String, Vec<usize>>,
    name: String,
    source: usize,
) -> Result<(), NoMemory>
    ensures { OnOk result ((q : Text) → named_in sources.new q ≡ named_in sources.old q ++ (if bytes_eq q (string_bytes name) then source ∷ [] else [])) }
{
    sources.entry(name)?.or_default().push(source)?;
    Ok(())
}

// Puts a place behind those of the name, unless the last of them is in its source.
fn add_first_place(
    alloc: Global,
    places: &mut BTreeMap<String, Vec<Place>>,
    name: &str,
    place: Place,
) -> Result<(), NoMemory>
    ensures { OnOk result ((q : Text) → spots_of places.new q ≡ spots_of places.old q ++ (if bytes_eq q name.now && not (ends_in place.source (spots_of places.old name.now)) then place ∷ [] else [])) }
{
    if ends_in(places_of(places, name), place.source) {
        return Ok(());
    }
    add_place(places, String::from_str(alloc, name)?, place)
}

// Whether the last place is in the source.
fn ends_in(places: &[Place], source: usize) -> bool
    ensures { result ≡ ends_in source places.now }
{
    match places.last() {
        None => false,
        Some(place) => place.source == source,
    }
}

// Puts the columns of a source, which begin at a number, behind those of the sources before it. Of two columns with the
// same name only the first is found.
fn add_columns(
    alloc: Global,
    places: &mut BTreeMap<String, Vec<Place>>,
    source: usize,
    begin: usize,
    columns: &[Column],
) -> Result<(), NoMemory>
    requires few { begin + length columns.now < 2 ^ 32 }
    requires behind { (q : Text) → AllByRecursion (λ p. p.source < source) (spots_of places.old q) }
    ensures { OnOk result ((q : Text) → spots_of places.new q ≡ spots_of places.old q ++ spot_at source begin (position (λ c. bytes_eq q c.name) columns.now)) }
{
    for (i, column) in columns.iter().enumerate() {
        let number = (begin + i) as u32;
        add_first_place(
            alloc,
            places,
            column.name.as_str(),
            Place { source, number },
        )?;
    }
    Ok(())
}

// The places of a name, in order.
pub fn places_of<'a>(places: &'a BTreeMap<String, Vec<Place>>, name: &str) -> &'a [Place]
    ensures { result.now ≡ spots_of places.now name.now }
{
    match places.get(name) {
        None => &[],
        Some(places) => places.as_slice(),
    }
}

// The sources of a name, in order.
pub fn sources_of<'a>(sources: &'a BTreeMap<String, Vec<usize>>, name: &str) -> &'a [usize]
    ensures { result.now ≡ named_in sources.now name.now }
{
    match sources.get(name) {
        None => &[],
        Some(sources) => sources.as_slice(),
    }
}

// How many places are in the first sources.
pub fn places_before(places: &[Place], sources: usize) -> usize
    requires { IsRising places.now }
    ensures { result ≡ length (numbers_before sources places.now) }
{
    places.partition_point(|place| place.source < sources)
}

// The number of the column in a source that is among the first.
pub fn number_before(places: &[Place], source: usize, sources: usize) -> Option<u32>
    requires { IsRising places.now }
    ensures { option_to_list result ≡ found_in sources places.now source }
{
    if source < sources {
        number_in(places, source)
    } else {
        None
    }
}

// The number of the column in a source.
fn number_in(places: &[Place], source: usize) -> Option<u32>
    requires { IsRising places.now }
    ensures { option_to_list result ≡ numbers_at source places.now }
{
    number_if(at(places, places_before(places, source)), source)
}

// The number of the place, if it is in the source.
fn number_if(place: Option<&Place>, source: usize) -> Option<u32>
    ensures { option_to_list result ≡ number_if_at source (option_copied place.entry) }
{
    match place {
        None => None,
        Some(place) => if place.source == source {
            Some(place.number)
        } else {
            None
        },
    }
}
