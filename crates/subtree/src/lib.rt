// The subtree successor of a name in a zone that keeps to an alphabet: the first name past it and all names under it.
#![tactic(auto)]

ghost use Rattle.name.specs.Answer.{Fills, said};
ghost use Rattle.subtree.specs.Successor.{subtree_successor_in};

use alphabet::Alphabet;
use checks::Depth;
use name::Refusal;
use neighbour::nearest::nearest;
use plan::Way;

// Writes the first name of the zone after the name and all names under it to the front of space, or the apex where there is none: 1 to 6,
// 12, then 9.
pub fn subtree_successor(
    alphabet: Alphabet,
    apex: &[u8],
    limit: u64,
    name: &[u8],
    space: &mut [u8],
) -> Result<usize, Refusal>
    ensures { Fills (subtree_successor_in alphabet apex.now limit name.now)
        space.old (said result) space.new }
{
    nearest(Way::Past, alphabet, Depth::All, apex, limit, name, space)
}
