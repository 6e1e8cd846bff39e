// The walk over a name that notes where its last three labels before a place begin, for the depths that ask for them.
ghost use Rattle.std.specs.Prelude.{◌≡◌, ◌≤◌, length, get_or};
ghost use Rattle.checks.specs.Private.Depths.{labels};
ghost use Rattle.checks.specs.Private.Walks.{Walks, place_for};

use crate::Depth;
use name::Name;

// The first octet; 256, which none is, where there are no octets.
pub(crate) fn first_octet(name: &[u8]) -> usize
    ensures { result ≡ get_or name.now 0 256 }
{
    if name.len() == 0 {
        return 256;
    }
    name[0] as usize
}

// Of the places where the last label, the last two and the last three begin, the one for a depth; all labels begin at the front.
fn place_for(depth: Depth, one: usize, two: usize, three: usize) -> usize
    ensures { result ≡ place_for depth one two three }
{
    match depth {
        Depth::All => 0,
        Depth::One => one,
        Depth::Two => two,
        Depth::Three => three,
        Depth::Other => one,
    }
}

// One walk over the octets: where the last labels before the place cut begin, as many as the depth allows; 255 where the octets are no
// whole name, or no label begins at the cut. It notes the last three places as it goes, and 0 where there are fewer labels.
pub(crate) fn walk(name: &[u8], cut: usize, depth: Depth) -> usize
    requires { length name.now ≤ 255 }
    ensures { Walks name.now cut (labels depth) result }
{
    let mut p = 0;
    let mut o = first_octet(name);
    let mut one = 0;
    let mut two = 0;
    let mut three = 0;
    let mut end = 0;
    while 0 < o {
        if o > Name::MAX_LABEL {
            return Name::MAX_LEN;
        }
        let q = p + 1;
        let e = q + o;
        if name.len() <= e {
            return Name::MAX_LEN;
        }
        if e <= cut {
            three = two;
            two = one;
            one = p;
            end = e;
        }
        let rest = &name[q..];
        o = rest[o] as usize;
        p = e;
    }
    if p + 1 < name.len() {
        return Name::MAX_LEN;
    }
    if end == cut {
        return place_for(depth, one, two, three);
    }
    Name::MAX_LEN
}
