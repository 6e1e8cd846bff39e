// The modified neighbours of a name in a zone that keeps to an alphabet: the nearest of the names with at most so many labels more than the
// apex as the depth says, 1 to 3.
ghost use Rattle.std.specs.Prelude.{◌≡◌};
ghost use Rattle.name.specs.Answer.{Fills, said};
ghost use Rattle.neighbour.specs.Modified.{modified_predecessor_in, modified_successor_in};
ghost use Rattle.neighbour.specs.Private.Depths.{depth_of};

use crate::nearest::nearest;
use alphabet::Alphabet;
use checks::Depth;
use name::Refusal;
use plan::Way;

// The depth that a number stands for: 1 to 3, and any other is refused.
fn depth_of(number: u64) -> Depth
    ensures { result ≡ depth_of number }
{
    if number == 1 {
        return Depth::One;
    }
    if number == 2 {
        return Depth::Two;
    }
    if number == 3 {
        return Depth::Three;
    }
    Depth::Other
}

// Writes the modified predecessor of a name to the front of space: 1 to 7, 12, then 9.
pub fn modified_predecessor(
    alphabet: Alphabet,
    depth: u64,
    apex: &[u8],
    limit: u64,
    name: &[u8],
    space: &mut [u8],
) -> Result<usize, Refusal>
    ensures { Fills (modified_predecessor_in alphabet depth apex.now limit name.now)
        space.old (said result) space.new }
{
    nearest(
        Way::Before,
        alphabet,
        depth_of(depth),
        apex,
        limit,
        name,
        space,
    )
}

// Writes the modified successor of a name to the front of space: 1 to 7, 12, then 9.
pub fn modified_successor(
    alphabet: Alphabet,
    depth: u64,
    apex: &[u8],
    limit: u64,
    name: &[u8],
    space: &mut [u8],
) -> Result<usize, Refusal>
    ensures { Fills (modified_successor_in alphabet depth apex.now limit name.now)
        space.old (said result) space.new }
{
    nearest(
        Way::After,
        alphabet,
        depth_of(depth),
        apex,
        limit,
        name,
        space,
    )
}
