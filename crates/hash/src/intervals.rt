// Whether a hash lies between two others.
ghost use Rattle.std.specs.Prelude.{◌≡◌, ◌+◌, ◌≤◌, take, drop};
ghost use Rattle.hash.specs.Digits.{value};
ghost use Rattle.hash.specs.Between.{lies_between};
ghost use Rattle.hash.specs.Private.Whole.{whole, lesser};

// A hash as a number, in parts of 4, 8 and 8 octets.
#[derive(Clone, Copy)]
struct Number {
    high: u64,
    middle: u64,
    low: u64,
}

// The number that w octets of a hash from index at on are. The compiler makes one load of them.
fn part(hash: [u8; 20], at: usize, w: usize) -> u64
    requires { (at + w ≤ 20) × (w ≤ 8) }
    ensures { result ≡ value 256 (take w (drop at hash)) }
{
    let h = hash;
    let mut v = 0u64;
    for k in 0..w {
        v = 256 * v + h[at + k] as u64;
    }
    v
}

fn in_parts(hash: [u8; 20]) -> Number
    ensures { whole result.high result.middle result.low ≡ value 256 hash }
{
    let high = part(hash, 0, 4);
    let middle = part(hash, 4, 8);
    let low = part(hash, 12, 8);
    Number { high, middle, low }
}

// Whether the first number is the lesser: the first part that differs decides.
fn less(a: Number, b: Number) -> bool
    ensures { result ≡ lesser a.high a.middle a.low b.high b.middle b.low }
{
    if a.high < b.high {
        return true;
    }
    if b.high < a.high {
        return false;
    }
    if a.middle < b.middle {
        return true;
    }
    if b.middle < a.middle {
        return false;
    }
    if a.low < b.low {
        return true;
    }
    false
}

// Whether a hash lies strictly between two others on the ring, going up from the first. Where the two are equal, every other hash does.
pub fn hash_between(first: [u8; 20], hash: [u8; 20], second: [u8; 20]) -> bool
    ensures { result ≡ lies_between first hash second }
{
    let a = in_parts(first);
    let v = in_parts(hash);
    let b = in_parts(second);
    if less(a, b) {
        if less(a, v) {
            return less(v, b);
        }
        return false;
    }
    if less(a, v) {
        return true;
    }
    less(v, b)
}
