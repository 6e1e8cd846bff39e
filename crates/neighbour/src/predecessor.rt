// The absolute predecessor of a name in a zone that keeps to an alphabet.
ghost use Rattle.name.specs.Answer.{Fills, said};
ghost use Rattle.neighbour.specs.Neighbour.{predecessor_in};

use crate::nearest::nearest;
use alphabet::Alphabet;
use checks::Depth;
use name::Refusal;
use plan::Way;

// Writes the absolute predecessor of a name to the front of space: 1 to 6, 12, then 9.
pub fn predecessor(
    alphabet: Alphabet,
    apex: &[u8],
    limit: u64,
    name: &[u8],
    space: &mut [u8],
) -> Result<usize, Refusal>
    ensures { Fills (predecessor_in alphabet apex.now limit name.now) space.old (said result) space.new }
{
    nearest(Way::Before, alphabet, Depth::All, apex, limit, name, space)
}
