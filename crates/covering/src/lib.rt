// How a denial is read: whether a gap covers a name, and the name that a denial is about, the next closer name.
#![tactic(auto)]

ghost use Rattle.std.specs.Prelude.{◌≡◌, ◌≤◌, length, drop};
ghost use Rattle.covering.specs.Between.{covers_of};
ghost use Rattle.covering.specs.NextCloser.{next_closer_of};
ghost use Rattle.covering.specs.Private.Sorting.{sorting_of, goes_round};

use checks::{Depth, place};
use name::Name;
use order::compare;

// Whether one name sorts before another; none where one of the two is not well formed.
fn sort(first: &[u8], second: &[u8]) -> Option<bool>
    ensures { result ≡ sorting_of first.now second.now }
{
    let number = compare(first, second).ok()?;
    Some(number < 0)
}

// Whether the next name is not after the owner, where both are well formed.
fn goes_round(owner: &[u8], next: &[u8]) -> bool
    ensures { result ≡ goes_round (sorting_of owner.now next.now) }
{
    match sort(owner, next) {
        Some(before) => !before,
        None => false,
    }
}

// Whether the gap from an owner name to its next name covers a name: all three are well formed, and the name lies strictly between, or,
// where the next name is not after the owner, after the owner or before the next name. The ends are compared where that alone decides.
pub fn covers(owner: &[u8], next: &[u8], name: &[u8]) -> bool
    ensures { result ≡ covers_of owner.now next.now name.now }
{
    let Some(after) = sort(owner, name) else {
        return false;
    };
    let Some(before) = sort(name, next) else {
        return false;
    };
    if after & before {
        return true;
    }
    if after | before {
        return goes_round(owner, next);
    }
    false
}

// Where the next closer name of an encloser begins in the query, and the query's length where it has none: where the last label above the
// encloser does, as above an apex.
fn closer_place(encloser: &[u8], query: &[u8]) -> usize
    ensures { (result ≤ length query.now)
        × (drop result query.now ≡ next_closer_of encloser.now query.now) }
{
    let at = place(encloser, 255, Depth::One, query);
    if at == Name::MAX_LEN {
        return query.len();
    }
    if query.len() <= encloser.len() {
        return query.len();
    }
    at
}

// The next closer name of a query as a part of it: its ancestor, or itself, with one label more than the encloser. The empty part where one
// of the two is not well formed, or the encloser is no proper ancestor of the query, letter case aside.
pub fn next_closer<'a>(encloser: &[u8], query: &'a [u8]) -> &'a [u8]
    ensures { result.now ≡ next_closer_of encloser.now query.now }
{
    let at = closer_place(encloser, query);
    &query[at..]
}
