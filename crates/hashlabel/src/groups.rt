// Digits in one base become digits in another: four groups, each through its number.
ghost use Rattle.std.specs.Prelude.{◌≡◌, ◌+◌, ◌*◌, ◌≤◌, ◌<◌, ◌++◌, length, take, drop};
ghost use Rattle.space.specs.Octets.{overlay};
ghost use Rattle.hash.specs.Digits.{value, digits};
ghost use Rattle.hashlabel.specs.Private.Grouping.{Part, Regroups};

// The number of count digits from an index on.
fn number(s: &[u8], at: usize, count: usize, base: u64) -> u64
    requires { Part base count s.now at }
    ensures { result ≡ value base (take count (drop at s.now)) }
{
    let mut v = 0;
    for k in 0..count {
        v = v * base + (s[at + k] as u64);
    }
    v
}

// Writes the last count digits of a number from an index on.
fn put_digits(d: &mut [u8], at: usize, count: usize, base: u64, v: u64)
    requires count_in_bounds { at + count ≤ length d.old }
    requires base_nonzero { (0 < base) × (base ≤ 256) }
    ensures { d.new ≡ take at d.old ++ digits base count v ++ drop (at + count) d.old }
{
    let mut rest = v;
    for k in (0..count).rev() {
        d[at + k] = (rest % base) as u8;
        rest /= base;
    }
}

// Writes the digits of s, four groups of n, as four groups of m digits in another base to the front of d.
pub(crate) fn regroup(s: &[u8], base: u64, n: usize, d: &mut [u8], other: u64, m: usize)
    requires { Regroups base n other m s.now d.old }
    ensures { d.new ≡ overlay (digits other (4 * m) (value base s.now)) d.old }
{
    for g in 0..4 {
        put_digits(d, g * m, m, other, number(s, g * n, n, base));
    }
}
