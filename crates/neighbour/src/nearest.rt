// The neighbour of a name in a zone, over the way, the alphabet and the depth: its plan, written. One function does it for every operation,
// since what has one caller is compiled into it, and no plan goes through memory.
ghost use Rattle.name.specs.Answer.{Fills, said};
ghost use Rattle.plan.specs.Private.Nearby.{neighbour_of};

use alphabet::Alphabet;
use checks::Depth;
use drawing::draw;
use name::Refusal;
use plan::Way;
use writing::write;

// Writes the neighbour of a name to the front of space: the checks 1 to 6, 7 where the depth is limited, 12, then 9.
pub fn nearest(
    way: Way,
    alphabet: Alphabet,
    depth: Depth,
    apex: &[u8],
    limit: u64,
    name: &[u8],
    space: &mut [u8],
) -> Result<usize, Refusal>
    ensures { Fills (neighbour_of way alphabet depth apex.now limit name.now)
        space.old (said result) space.new }
{
    let drawn = draw(way, alphabet, depth, apex, limit, name);
    match drawn {
        Err(refusal) => Err(refusal),
        Ok(plan) => write(alphabet::greatest(alphabet), name, plan, space),
    }
}
