// The closest encloser of a name that does not exist, read off the two ends of its gap.
#![tactic(auto)]

mod forks;

ghost use Rattle.std.specs.Prelude.{◌≡◌};
ghost use Rattle.encloser.specs.Encloser.{longer, encloser_of, closest_of};
ghost use Rattle.enclosing.specs.Private.Relations.{enclose_after, enclose_of};

use crate::forks::{Reached, Relation, relate, same_end, scan};
use encloser::Encloser;
use name::Name;

// The longer of two ancestors of so many octets: the owner's if both are as long.
fn longer_of(owner: usize, next: usize) -> Encloser
    ensures { result ≡ longer owner next }
{
    if owner < next {
        return Encloser::OfNext(next);
    }
    Encloser::OfOwner(owner)
}

// Where the closest encloser stands, of a query that shares m octets with an owner before it, from how it stands to a next name of so many
// octets. Past the next name it is in the last gap where it shares all of that with the owner too.
fn enclose_after(m: usize, next: Relation, len: usize) -> Encloser
    ensures { result ≡ enclose_after m next len }
{
    match next {
        Relation::Before(n) => longer_of(m, n),
        Relation::Equal => Encloser::OfOwner(0),
        Relation::After(n) => {
            if n == len {
                if n <= m {
                    return Encloser::OfOwner(m);
                }
            }
            Encloser::OfOwner(0)
        }
        Relation::Unrelated => Encloser::OfOwner(0),
    }
}

// Where the closest encloser stands, from how the query stands to the owner and to a next name of so many octets.
fn enclose(owner: Relation, next: Relation, len: usize) -> Encloser
    ensures { result ≡ enclose_of owner next len }
{
    match owner {
        Relation::Before(_) => Encloser::OfOwner(0),
        Relation::Equal => Encloser::OfOwner(0),
        Relation::After(m) => enclose_after(m, next, len),
        Relation::Unrelated => Encloser::OfOwner(0),
    }
}

// Where the closest encloser of a query stands, from the owner and the next name of its gap: the longest ancestor that the query shares
// with either. Outside of the gap, no octet of the owner.
pub fn encloser_of(query: &[u8], owner: &[u8], next: &[u8]) -> Encloser
    ensures { result ≡ encloser_of query.now owner.now next.now }
{
    // so that octets of any number are refused within 255 of them
    if Name::MAX_LEN < query.len() {
        return Encloser::OfOwner(0);
    }
    let m = same_end(query, owner);
    let n = same_end(query, next);
    let found = scan(query, m.max(n));
    match found {
        None => Encloser::OfOwner(0),
        Some(u) => {
            let label = u.label;
            let at = u.at;
            let x = relate(query, Reached { label, at }, owner, m);
            let y = relate(query, Reached { label, at }, next, n);
            enclose(x, y, next.len())
        }
    }
}

// The closest encloser of a query as a part of the owner or of the next name of its gap; outside of the gap, the empty part of the owner.
pub fn closest_encloser<'a>(query: &[u8], owner: &'a [u8], next: &'a [u8]) -> &'a [u8]
    ensures { result.now ≡ closest_of query.now owner.now next.now }
{
    let found = encloser_of(query, owner, next);
    match found {
        Encloser::OfOwner(n) => {
            let at = owner.len() - n;
            &owner[at..]
        }
        Encloser::OfNext(n) => {
            let at = next.len() - n;
            &next[at..]
        }
    }
}
