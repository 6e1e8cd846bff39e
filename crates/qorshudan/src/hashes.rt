// The functions for C on hashes of NSEC3 zones. A hash is 20 octets, its owner label 32 characters without a length octet.
ghost use Rattle.std.specs.Prelude.{◌≡◌, ◌^◌, ◌<◌};
ghost use Rattle.name.specs.Answer.{value};
ghost use Rattle.hash.specs.Answers.{said, after_of, before_of, write_label_of, read_label_of, between_of};
ghost use Rattle.qorshudan.specs.Packed.{packed, Exports};

use crate::pack;
use hash::{HashRefusal, NoHashes};

fn pack_hash(outcome: Result<usize, HashRefusal>) -> u64
    requires { value (said outcome) < 2 ^ 32 }
    ensures { result ≡ packed (said outcome) }
{
    match outcome {
        Ok(n) => pack(0, 0, n),
        Err(HashRefusal::NoHash) => 17,
        Err(HashRefusal::NoRoom) => 9,
    }
}

// Writes the hash after a hash to the front of space: 17, then 9.
pub fn qorshudan_hash_after(hash: &[u8], space: &mut [u8]) -> u64
    ensures { Exports (after_of hash.now) space.old result space.new }
{
    pack_hash(hash::slices::after(hash, space))
}

// Writes the hash before a hash to the front of space: 17, then 9.
pub fn qorshudan_hash_before(hash: &[u8], space: &mut [u8]) -> u64
    ensures { Exports (before_of hash.now) space.old result space.new }
{
    pack_hash(hash::slices::before(hash, space))
}

// Writes the owner label of a hash to the front of space: 17, then 9.
pub fn qorshudan_write_hash_label(hash: &[u8], space: &mut [u8]) -> u64
    ensures { Exports (write_label_of hash.now) space.old result space.new }
{
    pack_hash(hashlabel::write_label(hash, space))
}

// Writes the hash that has this owner label, in either letter case, to the front of space: 17, then 9.
pub fn qorshudan_read_hash_label(label: &[u8], space: &mut [u8]) -> u64
    ensures { Exports (read_label_of label.now) space.old result space.new }
{
    pack_hash(hashlabel::read_label(label, space))
}

// Tells whether a hash lies strictly between two others on the ring, going up from the first: 1 or 0, or 17.
pub fn qorshudan_hash_between(first: &[u8], hash: &[u8], second: &[u8]) -> u64
    ensures { result ≡ packed (between_of first.now hash.now second.now) }
{
    let lies = hash::slices::between(first, hash, second);
    match lies {
        Ok(true) => pack(0, 0, 1),
        Ok(false) => pack(0, 0, 0),
        Err(NoHashes) => 17,
    }
}
