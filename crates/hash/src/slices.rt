// The operations on hashes where octets come from anywhere: what has not 20 octets is no hash.
ghost use Rattle.std.specs.Prelude.{◌≡◌};
ghost use Rattle.name.specs.Answer.{answer, Fills};
ghost use Rattle.hash.specs.Answers.{said, said_between, after_of, before_of, between_of};

use crate::intervals::hash_between;
use crate::steps::{hash_after, hash_before};
use crate::{HashRefusal, NoHashes, array};

// Writes a hash to the front of space: 9.
fn put_hash(hash: [u8; 20], space: &mut [u8]) -> Result<usize, HashRefusal>
    ensures { Fills (answer hash) space.old (said result) space.new }
{
    if space.len() < 20 {
        return Err(HashRefusal::NoRoom);
    }
    space::put(space, 0, &hash);
    Ok(20)
}

// Writes the hash after a hash to the front of space: 17, then 9.
pub fn after(hash: &[u8], space: &mut [u8]) -> Result<usize, HashRefusal>
    ensures { Fills (after_of hash.now) space.old (said result) space.new }
{
    if hash.len() != 20 {
        return Err(HashRefusal::NoHash);
    }
    put_hash(hash_after(array(hash)), space)
}

// Writes the hash before a hash to the front of space: 17, then 9.
pub fn before(hash: &[u8], space: &mut [u8]) -> Result<usize, HashRefusal>
    ensures { Fills (before_of hash.now) space.old (said result) space.new }
{
    if hash.len() != 20 {
        return Err(HashRefusal::NoHash);
    }
    put_hash(hash_before(array(hash)), space)
}

// Whether a hash lies strictly between two others on the ring, going up from the first, or 17 where one of the three is none.
pub fn between(first: &[u8], hash: &[u8], second: &[u8]) -> Result<bool, NoHashes>
    ensures { said_between result ≡ between_of first.now hash.now second.now }
{
    if first.len() != 20 {
        return Err(NoHashes);
    }
    if hash.len() != 20 {
        return Err(NoHashes);
    }
    if second.len() != 20 {
        return Err(NoHashes);
    }
    Ok(hash_between(array(first), array(hash), array(second)))
}
