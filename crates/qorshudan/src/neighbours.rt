// The neighbours of a name, for C. A name that is asked for without an alphabet is asked for in the full one, and at depth 1.
ghost use Rattle.std.specs.Prelude.{◌≡◌};
ghost use Rattle.neighbour.specs.Neighbour.{successor_of, predecessor_of, successor_in, predecessor_in};
ghost use Rattle.neighbour.specs.Modified.{modified_successor_of, modified_predecessor_of, modified_successor_in, modified_predecessor_in};
ghost use Rattle.qorshudan.specs.Packed.{Exports};
ghost use Rattle.qorshudan.specs.Arguments.{alphabet_of};

use crate::pack_outcome;
use alphabet::Alphabet;

// The alphabet of a number: 0 is the full one, any other letters, digits and hyphens.
pub(crate) fn alphabet_of(number: u64) -> Alphabet
    ensures { result ≡ alphabet_of number }
{
    if number == 0 {
        return Alphabet::Full;
    }
    Alphabet::Ldh
}

// Writes the absolute predecessor of a name to the front of space, in a zone that keeps to an alphabet: 1 to 6, 12, then 9.
pub fn qorshudan_predecessor_in(
    alphabet: u64,
    apex: &[u8],
    limit: u64,
    name: &[u8],
    space: &mut [u8],
) -> u64
    ensures { Exports (predecessor_in (alphabet_of alphabet) apex.now limit name.now)
        space.old result space.new }
{
    pack_outcome(neighbour::predecessor::predecessor(
        alphabet_of(alphabet),
        apex,
        limit,
        name,
        space,
    ))
}

// Writes the absolute successor of a name to the front of space, in a zone that keeps to an alphabet: 1 to 6, 12, then 9.
pub fn qorshudan_successor_in(
    alphabet: u64,
    apex: &[u8],
    limit: u64,
    name: &[u8],
    space: &mut [u8],
) -> u64
    ensures { Exports (successor_in (alphabet_of alphabet) apex.now limit name.now)
        space.old result space.new }
{
    pack_outcome(neighbour::successor::successor(alphabet_of(alphabet), apex, limit, name, space))
}

// Writes the modified predecessor of a name to the front of space, in a zone that keeps to an alphabet, at a depth of 1 to 3: 1 to 7, 12,
// then 9.
pub fn qorshudan_modified_predecessor_in(
    alphabet: u64,
    depth: u64,
    apex: &[u8],
    limit: u64,
    name: &[u8],
    space: &mut [u8],
) -> u64
    ensures { Exports (modified_predecessor_in (alphabet_of alphabet) depth apex.now limit name.now)
        space.old result space.new }
{
    pack_outcome(neighbour::modified::modified_predecessor(
        alphabet_of(alphabet),
        depth,
        apex,
        limit,
        name,
        space,
    ))
}

// Writes the modified successor of a name to the front of space, in a zone that keeps to an alphabet, at a depth of 1 to 3: 1 to 7, 12,
// then 9.
pub fn qorshudan_modified_successor_in(
    alphabet: u64,
    depth: u64,
    apex: &[u8],
    limit: u64,
    name: &[u8],
    space: &mut [u8],
) -> u64
    ensures { Exports (modified_successor_in (alphabet_of alphabet) depth apex.now limit name.now)
        space.old result space.new }
{
    pack_outcome(neighbour::modified::modified_successor(
        alphabet_of(alphabet),
        depth,
        apex,
        limit,
        name,
        space,
    ))
}

// Writes the absolute predecessor of a name to the front of space: 1 to 6, then 9.
pub fn qorshudan_predecessor(apex: &[u8], limit: u64, name: &[u8], space: &mut [u8]) -> u64
    ensures { Exports (predecessor_of apex.now limit name.now) space.old result space.new }
{
    qorshudan_predecessor_in(0, apex, limit, name, space)
}

// Writes the absolute successor of a name to the front of space: 1 to 6, then 9.
pub fn qorshudan_successor(apex: &[u8], limit: u64, name: &[u8], space: &mut [u8]) -> u64
    ensures { Exports (successor_of apex.now limit name.now) space.old result space.new }
{
    qorshudan_successor_in(0, apex, limit, name, space)
}

// Writes the modified predecessor of a name to the front of space: 1 to 7, then 9.
pub fn qorshudan_modified_predecessor(apex: &[u8], limit: u64, name: &[u8], space: &mut [u8]) -> u64
    ensures { Exports (modified_predecessor_of apex.now limit name.now)
        space.old result space.new }
{
    qorshudan_modified_predecessor_in(0, 1, apex, limit, name, space)
}

// Writes the modified successor of a name to the front of space: 1 to 7, then 9.
pub fn qorshudan_modified_successor(apex: &[u8], limit: u64, name: &[u8], space: &mut [u8]) -> u64
    ensures { Exports (modified_successor_of apex.now limit name.now)
        space.old result space.new }
{
    qorshudan_modified_successor_in(0, 1, apex, limit, name, space)
}
