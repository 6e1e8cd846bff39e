// The exports on hashes of NSEC3 zones. A hash is 20 octets, its owner label 32 characters without a length octet.
ghost use Rattle.std.specs.Prelude.{◌≡◌};
ghost use Rattle.hash.specs.Answers.{after_of, before_of, write_label_of, read_label_of, between_of};
ghost use Rattle.qorshudan.specs.Packed.{packed, Exports};

// Writes the hash after a hash to the front of space: 17, then 9.
#[unsafe(no_mangle)]
pub extern "C" fn qorshudan_hash_after(hash: &[u8], space: &mut [u8]) -> u64
    ensures { Exports (after_of hash.now) space.old result space.new }
{
    qorshudan::hashes::qorshudan_hash_after(hash, space)
}

// Writes the hash before a hash to the front of space: 17, then 9.
#[unsafe(no_mangle)]
pub extern "C" fn qorshudan_hash_before(hash: &[u8], space: &mut [u8]) -> u64
    ensures { Exports (before_of hash.now) space.old result space.new }
{
    qorshudan::hashes::qorshudan_hash_before(hash, space)
}

// Writes the owner label of a hash to the front of space: 17, then 9.
#[unsafe(no_mangle)]
pub extern "C" fn qorshudan_write_hash_label(hash: &[u8], space: &mut [u8]) -> u64
    ensures { Exports (write_label_of hash.now) space.old result space.new }
{
    qorshudan::hashes::qorshudan_write_hash_label(hash, space)
}

// Writes the hash that has this owner label, in either letter case, to the front of space: 17, then 9.
#[unsafe(no_mangle)]
pub extern "C" fn qorshudan_read_hash_label(label: &[u8], space: &mut [u8]) -> u64
    ensures { Exports (read_label_of label.now) space.old result space.new }
{
    qorshudan::hashes::qorshudan_read_hash_label(label, space)
}

// Tells whether a hash lies strictly between two others on the ring, going up from the first: 1 or 0, or 17.
#[unsafe(no_mangle)]
pub extern "C" fn qorshudan_hash_between(first: &[u8], hash: &[u8], second: &[u8]) -> u64
    ensures { result ≡ packed (between_of first.now hash.now second.now) }
{
    qorshudan::hashes::qorshudan_hash_between(first, hash, second)
}
