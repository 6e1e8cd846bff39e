// The absolute successor of a name in a zone that keeps to an alphabet.
ghost use Rattle.name.specs.Answer.{Fills, said};
ghost use Rattle.neighbour.specs.Neighbour.{successor_in};

use crate::nearest::nearest;
use alphabet::Alphabet;
use checks::Depth;
use name::Refusal;
use plan::Way;

// Writes the absolute successor of a name to the front of space: 1 to 6, 12, then 9.
pub fn successor(
    alphabet: Alphabet,
    apex: &[u8],
    limit: u64,
    name: &[u8],
    space: &mut [u8],
) -> Result<usize, Refusal>
    ensures { Fills (successor_in alphabet apex.now limit name.now) space.old (said result) space.new }
{
    nearest(Way::After, alphabet, Depth::All, apex, limit, name, space)
}
