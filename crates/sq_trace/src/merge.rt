//! Entries of two runs into those of their sum, by one merge; and copies of entries.
ghost use Rattle.std.specs.Prelude.{◌≡◌, ◌++◌, [], ℤ, None, Some, IfOk, MatchOption};
ghost use Rattle.std.specs.Option.{option_to_list};
ghost use Rattle.sq_trace.specs.Runs.{IsRun};
ghost use Rattle.sq_trace.specs.Inside.{IsSum, IsOutside, StopsAt, BeginsWith, Added, first_places_cmp};

use crate::Entry;
use sq_value::NoMemory;
use sq_zset::{Group, ZFault};
use std::alloc::Global;
use std::cmp::Ordering;

/// A copy of an entry.
pub(crate) fn copy_entry<P: Group>(alloc: Global, entry: &Entry<P>) -> Result<Entry<P>, NoMemory>
    requires { P.first_outside entry.now.payload ≡ None }
    ensures { IfOk result (λ copy. copy ≡ entry.now) }
{
    Ok(Entry {
        key: entry.key.clone_row(alloc)?,
        row: entry.row.clone_row(alloc)?,
        payload: entry.payload.clone_group(alloc)?,
    })
}

/// Copies of the entries of a run.
pub(crate) fn copy_entries<P: Group>(
    alloc: Global,
    entries: &[Entry<P>],
) -> Result<Vec<Entry<P>>, NoMemory>
    requires { IsRun P.addition P.first_outside entries.now }
    ensures { IfOk result (λ copies. copies.items ≡ entries.now) }
{
    let mut copies = Vec::with_capacity(alloc, entries.len())?;
    for entry in entries {
        copies.push(copy_entry(alloc, entry)?)?;
    }
    Ok(copies)
}

/// How the first places compare. A list with no more entries comes last.
fn compare_first<P>(left: &[Entry<P>], right: &[Entry<P>]) -> Option<Ordering>
    ensures { result ≡ first_places_cmp left.now right.now }
{
    match (left.first(), right.first()) {
        (None, None) => None,
        (None, Some(_)) => Some(Ordering::Greater),
        (Some(_), None) => Some(Ordering::Less),
        (Some(p), Some(q)) => Some(p.compare_place(&q.key, &q.row)),
    }
}

/// What one turn of a merge makes, and how many entries it takes from each side.
#[derive(Drop)]
struct Turn<P> {
    made: Option<Entry<P>>,
    from_left: usize,
    from_right: usize,
}

/// The entry at one place of the two sides: its payload is their sum, and a sum of zero makes no entry.
fn added<P: Group>(
    alloc: Global,
    left: &Entry<P>,
    right: &Entry<P>,
) -> Result<Option<Entry<P>>, ZFault>
    requires left_in_range { P.first_outside left.now.payload ≡ None }
    requires right_in_range { P.first_outside right.now.payload ≡ None }
    ensures ok { IfOk result (λ made. Added P.addition P.first_outside left.now right.now made) }
    ensures outside { (number : ℤ) → result ≡ Err (ZFault.Weight number) → P.first_outside (P.addition.plus left.now.payload right.now.payload) ≡ Some number }
{
    let payload = left.payload.plus(alloc, &right.payload)?;
    if payload.is_zero() {
        return Ok(None);
    }
    Ok(Some(Entry {
        key: left.key.clone_row(alloc)?,
        row: left.row.clone_row(alloc)?,
        payload,
    }))
}

/// The next turn of a merge, if any entry is left.
fn next_turn<P: Group>(
    alloc: Global,
    left: &[Entry<P>],
    right: &[Entry<P>],
) -> Result<Option<Turn<P>>, ZFault>
    requires left_run { IsRun P.addition P.first_outside left.now }
    requires right_run { IsRun P.addition P.first_outside right.now }
    ensures ok { IfOk result (λ next. MatchOption next ((left.now ≡ []) × (right.now ≡ [])) (λ turn. BeginsWith P.addition P.first_outside left.now right.now (option_to_list turn.made) turn.from_left turn.from_right)) }
    ensures outside { (number : ℤ) → result ≡ Err (ZFault.Weight number) → StopsAt P.addition P.first_outside left.now right.now number }
{
    let Some(order) = compare_first(left, right) else {
        return Ok(None);
    };
    let turn = match order {
        Ordering::Less => Turn {
            made: Some(copy_entry(alloc, &left[0])?),
            from_left: 1,
            from_right: 0,
        },
        Ordering::Equal => Turn {
            made: added(alloc, &left[0], &right[0])?,
            from_left: 1,
            from_right: 1,
        },
        Ordering::Greater => Turn {
            made: Some(copy_entry(alloc, &right[0])?),
            from_left: 0,
            from_right: 1,
        },
    };
    Ok(Some(turn))
}

/// Appends the entry, if there is one.
fn push_made<P: Drop>(list: &mut Vec<Entry<P>>, made: Option<Entry<P>>) -> Result<(), NoMemory>
    ensures { IfOk result (λ _. list.new.items ≡ list.old.items ++ option_to_list made) }
{
    if let Some(entry) = made {
        list.push(entry)?;
    }
    Ok(())
}

/// The sum of two runs, made by one merge.
///
/// The answer is `Weight` only if at some place the sum has a number outside its range, with that number.
pub(crate) fn merge<P: Group>(
    alloc: Global,
    left: &[Entry<P>],
    right: &[Entry<P>],
) -> Result<Vec<Entry<P>>, ZFault>
    requires left_run { IsRun P.addition P.first_outside left.now }
    requires right_run { IsRun P.addition P.first_outside right.now }
    ensures ok { IfOk result (λ sum. IsSum P.addition P.first_outside left.now right.now sum.items) }
    ensures outside { (number : ℤ) → result ≡ Err (ZFault.Weight number) → IsOutside P.addition P.first_outside left.now right.now number }
{
    let (mut left, mut right) = (left, right);
    let mut list = Vec::with_capacity(alloc, left.len() + right.len())?;
    while let Some(turn) = next_turn(alloc, left, right)? {
        push_made(&mut list, turn.made)?;
        left = &left[turn.from_left..];
        right = &right[turn.from_right..];
    }
    Ok(list)
}
