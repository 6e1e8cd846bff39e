// The functions for C on denials: the gaps that deny a query, the subtree successor of a name, whether a gap covers a name, and the next
// closer name of a query.
ghost use Rattle.std.specs.Prelude.{◌≡◌, cond, ◌^◌, ◌<◌, length};
ghost use Rattle.name.specs.Answer.{answer, value};
ghost use Rattle.subtree.specs.Successor.{subtree_successor_in};
ghost use Rattle.covering.specs.Between.{covers_of};
ghost use Rattle.covering.specs.NextCloser.{next_closer_of};
ghost use Rattle.gaps.specs.Denial.{denial_of};
ghost use Rattle.denial.specs.Answers.{said};
ghost use Rattle.qorshudan.specs.Packed.{packed, Exports, ExportsNames};
ghost use Rattle.qorshudan.specs.Arguments.{alphabet_of};

use crate::neighbours::alphabet_of;
use crate::{pack, pack_outcome};
use denial::DenialRefusal;

// Writes the first name of the zone after a name and all names under it to the front of space, or the apex where there is none, in a zone
// that keeps to an alphabet: 1 to 6, 12, then 9.
pub fn qorshudan_subtree_successor(
    alphabet: u64,
    apex: &[u8],
    limit: u64,
    name: &[u8],
    space: &mut [u8],
) -> u64
    ensures { Exports (subtree_successor_in (alphabet_of alphabet) apex.now limit name.now)
        space.old result space.new }
{
    pack_outcome(subtree::subtree_successor(alphabet_of(alphabet), apex, limit, name, space))
}

// Tells how many octets at the end of the query are its next closer name, one label longer than an encloser; 0 where it has none.
pub fn qorshudan_next_closer(encloser: &[u8], query: &[u8]) -> u64
    ensures { result ≡ packed (answer (length (next_closer_of encloser.now query.now))) }
{
    let closer = covering::next_closer(encloser, query);
    pack(0, 0, closer.len())
}

// Tells whether the gap from an owner name to its next name covers a name: 1 or 0.
pub fn qorshudan_covers(owner: &[u8], next: &[u8], name: &[u8]) -> u64
    ensures { result ≡ packed (answer (cond (covers_of owner.now next.now name.now) 1 0)) }
{
    if covering::covers(owner, next, name) {
        return pack(0, 0, 1);
    }
    pack(0, 0, 0)
}

fn pack_denied(denied: Result<usize, DenialRefusal>) -> u64
    requires { value (said denied) < 2 ^ 32 }
    ensures { result ≡ packed (said denied) }
{
    match denied {
        Ok(n) => pack(0, 0, n),
        Err(DenialRefusal::Refused(why)) => pack_outcome(Err(why)),
        Err(DenialRefusal::NoEncloser) => pack(18, 0, 0),
    }
}

// Writes the names of the gaps that deny a query back to back to the front of space, owner and next name of one gap or of two: their
// lengths, the first plus 2^8 times the second and so on, or 1 to 6, 18, then 9.
pub fn qorshudan_denial(
    apex: &[u8],
    limit: u64,
    encloser: &[u8],
    query: &[u8],
    space: &mut [u8],
) -> u64
    ensures { ExportsNames (denial_of apex.now limit encloser.now query.now)
        space.old result space.new }
{
    pack_denied(denial::denial(apex, limit, encloser, query, space))
}
