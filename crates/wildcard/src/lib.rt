// The wildcard name above an encloser.
#![tactic(auto)]

ghost use Rattle.name.specs.Answer.{said, Fills};
ghost use Rattle.encloser.specs.Wildcard.{wildcard_of};

use name::{Name, Refusal};

// Writes the wildcard name of an encloser to the front of space, the encloser spelled as it is: 4, then 5, then 9.
pub fn wildcard(encloser: &[u8], space: &mut [u8]) -> Result<usize, Refusal>
    ensures { Fills (wildcard_of encloser.now) space.old (said result) space.new }
{
    name::read(encloser).map_err(Refusal::BadName)?;
    if Name::MAX_LEN < encloser.len() + 2 {
        return Err(Refusal::NameTooLong);
    }
    if space.len() < encloser.len() + 2 {
        return Err(Refusal::NoRoom);
    }
    space[0] = 1;
    space[1] = b'*';
    space::put_blocks(space, 2, encloser);
    Ok(encloser.len() + 2)
}
