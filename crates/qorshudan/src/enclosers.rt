// The functions for C on the closest encloser of a query, and on the wildcard above an encloser.
ghost use Rattle.std.specs.Prelude.{◌≡◌};
ghost use Rattle.encloser.specs.Encloser.{encloser_of};
ghost use Rattle.encloser.specs.Wildcard.{wildcard_of};
ghost use Rattle.qorshudan.specs.Packed.{packed, placed, Exports};

use crate::{pack, pack_outcome};
use encloser::Encloser;

// Tells where the closest encloser of a query stands: its octets, plus 2^8 where they are the end of the next name; 0 outside of the gap.
pub fn qorshudan_closest_encloser(query: &[u8], owner: &[u8], next: &[u8]) -> u64
    ensures { result ≡ packed (placed (encloser_of query.now owner.now next.now)) }
{
    let found = enclosing::encloser_of(query, owner, next);
    match found {
        Encloser::OfOwner(n) => pack(0, 0, n),
        Encloser::OfNext(n) => pack(0, 0, n + 256),
    }
}

// Writes the wildcard name of an encloser, spelled as it is, to the front of space: 4, then 5, then 9.
pub fn qorshudan_wildcard(encloser: &[u8], space: &mut [u8]) -> u64
    ensures { Exports (wildcard_of encloser.now) space.old result space.new }
{
    pack_outcome(wildcard::wildcard(encloser, space))
}
