// The denial of a query that does not exist: the gaps of its next closer name and of the wildcard above its closest encloser.
#![tactic(auto)]

mod wild;

ghost use Rattle.std.specs.Prelude.{◌≡◌, ◌+◌, ◌≤◌, length};
ghost use Rattle.name.specs.Answer.{answer, said as outcome-said};
ghost use Rattle.encloser.specs.Wildcard.{wildcard_name};
ghost use Rattle.gaps.specs.Denial.{one_gap, two_gaps, gaps_of, denial_of};
ghost use Rattle.gaps.specs.Denies.{Denies};
ghost use Rattle.denial.specs.Answers.{said};
ghost use Rattle.denial.specs.Private.Held.{Missing, Deniable};
ghost use Rattle.denial.specs.Private.Mark.{MarkOf};

use crate::wild::{is_wild, wild_next, wild_owner};
use alphabet::Alphabet;
use checkcloser::place_both;
use checks::why;
use ends::{next_plan, owner_plan};
use gapnames::{write_joined, write_one};
use name::{Name, Refusal};

// Why a query is not denied: 1 to 6 and 9, or 18 for no encloser.
#[derive(Clone, Copy)]
pub enum DenialRefusal {
    Refused(Refusal),
    NoEncloser,
}

// Writes the gap of a name that is not the apex: 9.
fn deny_one(apex: &[u8], limit: u64, name: &[u8], space: &mut [u8]) -> Result<usize, Refusal>
    requires { Missing apex.now limit name.now }
    ensures { Denies (answer (one_gap apex.now limit name.now))
        space.old (outcome-said result) space.new }
{
    let most = limit as usize;
    let cut = name.len() - apex.len();
    let g = alphabet::greatest(Alphabet::Full);
    let a = owner_plan(name, cut, most);
    let b = next_plan(name, cut, most);
    write_one(name, a, g, b, g, space)
}

// Writes the gaps of a next closer name and of the wildcard above its encloser: 9. All four names are made of octets of the first.
fn deny_two(
    apex: &[u8],
    limit: u64,
    encloser: &[u8],
    closer: &[u8],
    space: &mut [u8],
) -> Result<usize, Refusal>
    requires { Deniable apex.now limit encloser.now closer.now × (length encloser.now + 2 ≤ limit) }
    ensures { Denies (answer (two_gaps apex.now limit closer.now (wildcard_name encloser.now)))
        space.old (outcome-said result) space.new }
{
    let most = limit as usize;
    let cut = closer.len() - apex.len();
    let rest = closer.len() - encloser.len();
    let left = most - (encloser.len() + 2);
    let g = alphabet::greatest(Alphabet::Full);
    let a = owner_plan(closer, cut, most);
    let b = next_plan(closer, cut, most);
    let c = wild_owner(rest, left);
    let d = wild_next(rest, left);
    write_joined(closer, rest, a, b, c, g, d, space)
}

// Writes the gaps of a next closer name and of the wildcard above an encloser: 9.
fn deny(
    apex: &[u8],
    limit: u64,
    encloser: &[u8],
    closer: &[u8],
    space: &mut [u8],
) -> Result<usize, Refusal>
    requires { Deniable apex.now limit encloser.now closer.now }
    ensures { Denies (answer (gaps_of apex.now limit closer.now (wildcard_name encloser.now)))
        space.old (outcome-said result) space.new }
{
    let n = encloser.len() + 2;
    if (limit as usize) < n {
        return deny_one(apex, limit, closer, space);
    }
    if is_wild(closer, n) {
        return deny_one(apex, limit, closer, space);
    }
    deny_two(apex, limit, encloser, closer, space)
}

// What was written, as a denial says it.
fn told(made: Result<usize, Refusal>) -> Result<usize, DenialRefusal>
    ensures { said result ≡ outcome-said made }
{
    match made {
        Ok(n) => Ok(n),
        Err(w) => Err(DenialRefusal::Refused(w)),
    }
}

// Where an encloser's octets would begin in the query; the query's end, where no label begins, if the encloser is not shorter.
fn mark_of(encloser: &[u8], query: &[u8]) -> usize
    ensures { MarkOf encloser.now query.now result }
{
    if encloser.len() < query.len() {
        return query.len() - encloser.len();
    }
    query.len()
}

// Writes the names of the gaps that deny a query back to back to the front of space: owner and next name of the gap of its next closer
// name, then those of the wildcard's, or one gap alone. 1 to 6 for apex, limit and query, 18 where the encloser is no proper ancestor of
// the query at or under the apex, then 9.
pub fn denial(
    apex: &[u8],
    limit: u64,
    encloser: &[u8],
    query: &[u8],
    space: &mut [u8],
) -> Result<usize, DenialRefusal>
    ensures { Denies (denial_of apex.now limit encloser.now query.now)
        space.old (said result) space.new }
{
    let mark = mark_of(encloser, query);
    let at = place_both(apex, limit, mark, query);
    if Name::MAX_LEN < at {
        return Err(DenialRefusal::Refused(why(apex, limit, query)));
    }
    if encloser.len() < apex.len() {
        return Err(DenialRefusal::NoEncloser);
    }
    if at == Name::MAX_LEN {
        return Err(DenialRefusal::NoEncloser);
    }
    if space::same_folded(&query[0..], mark, &encloser[0..]) {
        let closer = &query[at..];
        return told(deny(apex, limit, encloser, closer, space));
    }
    Err(DenialRefusal::NoEncloser)
}
