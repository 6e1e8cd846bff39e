// The exports on the closest encloser of a query, and on the wildcard above an encloser.
ghost use Rattle.std.specs.Prelude.{◌≡◌};
ghost use Rattle.encloser.specs.Encloser.{encloser_of};
ghost use Rattle.encloser.specs.Wildcard.{wildcard_of};
ghost use Rattle.qorshudan.specs.Packed.{packed, placed, Exports};

// Tells where the closest encloser of a query stands: its octets, plus 2^8 where they are the end of the next name; 0 outside of the gap.
#[unsafe(no_mangle)]
pub extern "C" fn qorshudan_closest_encloser(query: &[u8], owner: &[u8], next: &[u8]) -> u64
    ensures { result ≡ packed (placed (encloser_of query.now owner.now next.now)) }
{
    qorshudan::enclosers::qorshudan_closest_encloser(query, owner, next)
}

// Writes the wildcard name of an encloser, spelled as it is, to the front of space: 4, then 5, then 9.
#[unsafe(no_mangle)]
pub extern "C" fn qorshudan_wildcard(encloser: &[u8], space: &mut [u8]) -> u64
    ensures { Exports (wildcard_of encloser.now) space.old result space.new }
{
    qorshudan::enclosers::qorshudan_wildcard(encloser, space)
}
