// Whether the labels above the apex are spelled in an alphabet.
#![tactic(auto)]

ghost use Rattle.std.specs.Prelude.{◌≡◌, map, ◌≤◌, length};
ghost use Rattle.space.specs.Private.Put.{folded_part};
ghost use Rattle.alphabet.specs.Alphabets.{all_spelled};
ghost use Rattle.alphabet.specs.Private.Counting.{others};
ghost use Rattle.checks.specs.Private.Boundary.{Boundary, upper};

use alphabet::Alphabet;

// How many of the first count octets, folded, are no letters, digits or hyphens. All are looked at, which goes faster than to stop.
fn others(octets: &[u8], count: usize) -> usize
    requires { (count ≤ length octets.now) × (count ≤ 255) }
    ensures { result ≡ others (folded_part octets.now 0 count) }
{
    let mut n = 0u8;
    for k in 0..count {
        if !alphabet::folds_to_ldh(octets[k]) {
            n += 1;
        }
    }
    n as usize
}

// How many of the length octets before the place cut of a name are none.
fn other_lengths(name: &[u8], cut: usize) -> usize
    requires { Boundary name.now cut }
    ensures { result ≡ others (map length (upper name.now cut)) }
{
    let mut n = 0;
    let mut p = 0;
    while p < cut {
        let size = name[p];
        let first = p + 1;
        if !alphabet::includes(Alphabet::Ldh, size) {
            n += 1;
        }
        p = first + size as usize;
    }
    n
}

// Whether the labels before the place cut of a name are of letters, digits and hyphens: where they are, no octet before the place is
// another but length octets. One pass over all octets and one along the labels go faster than a loop for each label.
fn labels_spelled(name: &[u8], cut: usize) -> bool
    requires { Boundary name.now cut }
    ensures { result ≡ all_spelled Alphabet.Ldh (upper name.now cut) }
{
    others(name, cut) == other_lengths(name, cut)
}

// Whether they are spelled in an alphabet: folded labels are in the full one, so that they are not looked at.
pub fn all_spelled(alphabet: Alphabet, name: &[u8], cut: usize) -> bool
    requires { Boundary name.now cut }
    ensures { result ≡ all_spelled alphabet (upper name.now cut) }
{
    match alphabet {
        Alphabet::Full => true,
        Alphabet::Ldh => labels_spelled(name, cut),
    }
}
