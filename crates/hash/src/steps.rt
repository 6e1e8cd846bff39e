// The hashes after and before a hash. Octets to the left of one that carries or borrows nothing stay as they are.
ghost use Rattle.std.specs.Prelude.{◌≡◌};
ghost use Rattle.hash.specs.Ring.{after, before};

// The hash after a hash: one more as a number, and 0 after the greatest.
pub fn hash_after(hash: [u8; 20]) -> [u8; 20]
    ensures { result ≡ after hash }
{
    let mut octets = hash;
    let mut carry = 1;
    for i in (0..20).rev() {
        if carry == 0 {
            return octets;
        }
        let sum = octets[i].wrapping_add(carry);
        carry = if sum < carry { 1 } else { 0 };
        octets[i] = sum;
    }
    octets
}

// The hash before a hash: one less as a number, and the greatest before 0.
pub fn hash_before(hash: [u8; 20]) -> [u8; 20]
    ensures { result ≡ before hash }
{
    let mut octets = hash;
    let mut borrow = 1;
    for i in (0..20).rev() {
        if borrow == 0 {
            return octets;
        }
        let octet = octets[i];
        let difference = octet.wrapping_sub(borrow);
        borrow = if octet < borrow { 1 } else { 0 };
        octets[i] = difference;
    }
    octets
}
