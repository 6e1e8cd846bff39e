// The plan of a predecessor: the last octet of the name's first label is lowered, and the greatest labels that fit go in front.
ghost use Rattle.std.specs.Prelude.{◌≡◌, ◌-◌, ◌≤◌, min, length};
ghost use Rattle.zone.specs.Steps.{greatest, predecessor_steps};
ghost use Rattle.alphabet.specs.Alphabets.{allowed};
ghost use Rattle.checks.specs.Private.Depths.{labels};
ghost use Rattle.checks.specs.Private.Boundary.{Boundary, upper};
ghost use Rattle.plan.specs.Private.Greatest.{Taken};
ghost use Rattle.plan.specs.Private.Asked.{Begins, stepped, Plans, whole, Allows};

use crate::Plan;
use alphabet::Alphabet;
use checks::Depth;
use name::Name;

// How many octets the greatest labels take, at most k labels in left octets. A label takes two or more.
pub fn front_len(k: usize, left: usize) -> usize
    ensures { Taken k left result }
{
    if k <= left / 64 {
        return 64 * k;
    }
    if left % 64 == 1 {
        return left - 1;
    }
    left
}

// How many labels lead from the front of a name to the place cut.
fn count(name: &[u8], cut: usize) -> usize
    requires { Boundary name.now cut }
    ensures { result ≡ length (upper name.now cut) }
{
    let mut n = 0;
    let mut p = 0;
    while p < cut {
        p = p + 1 + (name[p] as usize);
        n += 1;
    }
    n
}

// How many labels above the apex a depth allows.
fn most_labels(depth: Depth) -> usize
    ensures { result ≡ labels depth }
{
    match depth {
        Depth::All => Name::MAX_LABELS,
        Depth::One => 1,
        Depth::Two => 2,
        Depth::Three => 3,
        Depth::Other => 1,
    }
}

// How many labels the depth allows in front of a name that has no more than it allows; where all are allowed, more than fit.
pub fn more(depth: Depth, name: &[u8], cut: usize) -> usize
    requires { Boundary name.now cut × (length (upper name.now cut) ≤ labels depth) }
    ensures { Allows (labels depth) (length (upper name.now cut)) result }
{
    let most = most_labels(depth);
    if most == Name::MAX_LABELS {
        return most;
    }
    most - count(name, cut)
}

// How many octets pad a label of size octets where left octets are free.
pub fn padding(size: usize, left: usize) -> usize
    requires { size ≤ 63 }
    ensures { result ≡ min (63 - size) left }
{
    left.min(Name::MAX_LABEL - size)
}

// Greatest labels that take front octets, and the name from the index rest on.
pub fn unchanged(front: usize, rest: usize) -> Plan
    ensures { result ≡ whole front rest }
{
    Plan {
        front,
        first: 0,
        kept: 0,
        octet: 0,
        tail: 0,
        rest,
    }
}

// The plan of the predecessor of a name whose labels above the apex are those before the place cut; the last of them, as many as the depth
// allows, begin at the place at. If there are others before them, it is the name from there on, and no step below it.
pub fn plan_before(
    alphabet: Alphabet,
    depth: Depth,
    name: &[u8],
    cut: usize,
    at: usize,
    limit: usize,
) -> Plan
    requires { Begins (labels depth) name.now cut at limit }
    ensures { Plans (greatest (allowed alphabet)) name.now
        (stepped (predecessor_steps (allowed alphabet)) name.now cut limit (labels depth)) result }
{
    if 0 < at {
        return unchanged(0, at);
    }
    let k = more(depth, name, cut);
    let left = limit - name.len();
    if cut == 0 {
        return unchanged(front_len(k, left), 0);
    }
    let size = name[0] as usize;
    let last = space::lower(name[size]);
    let octet = alphabet::previous(alphabet, last);
    if octet < last {
        let pad = padding(size, left);
        return Plan {
            front: front_len(k, left - pad),
            first: 1,
            kept: size - 1,
            octet,
            tail: pad + 1,
            rest: size + 1,
        };
    }
    if size == 1 {
        return unchanged(0, 2);
    }
    Plan {
        front: front_len(k, left + 1),
        first: 1,
        kept: size - 2,
        octet: space::lower(name[size - 1]),
        tail: 1,
        rest: size + 1,
    }
}
