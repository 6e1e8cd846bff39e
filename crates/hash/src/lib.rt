// Hashes of NSEC3 zones (RFC 5155): 20 octets as a number of 160 bits on a ring. The hash after and before a hash, and whether a hash lies
// between two others.
#![tactic(auto)]

pub mod intervals;
pub mod slices;
pub mod steps;

ghost use Rattle.std.specs.Prelude.{◌≡◌};
ghost use Rattle.hash.specs.Private.Arrays.{array_of};

// Why an operation that writes octets refuses: 17, and 9.
#[derive(Clone, Copy)]
pub enum HashRefusal {
    NoHash,
    NoRoom,
}

// One of three hashes is none: 17.
#[derive(Clone, Copy)]
pub struct NoHashes;

// The hash with these octets, and 0 where they are no hash.
pub fn array(octets: &[u8]) -> [u8; 20]
    ensures { result ≡ array_of octets.now }
{
    let mut held = [0u8; 20];
    if octets.len() == 20 {
        space::put(&mut held, 0, octets);
    }
    held
}
