// The ends of the gap of a wildcard, as plans for a name that has the wildcard's encloser from an index on. The label of a wildcard is one
// octet, and the ends keep nothing of it: the owner's is `)` and its padding, the next name's `*` and an octet 0, or `+` where that has no
// room. So the wildcard is not written to be read.
ghost use Rattle.std.specs.Prelude.{◌≡◌, ◌≤◌};
ghost use Rattle.denial.specs.Private.Wild.{is_wild, WildOwner, wild_next};

use name::Name;
use plan::Plan;
use plan::lowering::{front_len, padding};

// The plan of the owner, where the wildcard leaves so many octets free.
pub(crate) fn wild_owner(rest: usize, left: usize) -> Plan
    requires { left ≤ 255 }
    ensures { WildOwner rest left result }
{
    let pad = padding(1, left);
    Plan {
        front: front_len(Name::MAX_LABELS, left - pad),
        first: 0,
        kept: 0,
        octet: b')',
        tail: pad + 1,
        rest,
    }
}

// The plan of the next name, which the octet 0 pads.
pub(crate) fn wild_next(rest: usize, left: usize) -> Plan
    ensures { result ≡ wild_next rest left }
{
    if left == 0 {
        return Plan {
            front: 0,
            first: 0,
            kept: 0,
            octet: b'+',
            tail: 1,
            rest,
        };
    }
    Plan {
        front: 0,
        first: 0,
        kept: 0,
        octet: b'*',
        tail: 2,
        rest,
    }
}

// Whether a name has n octets, and its first label is the wildcard's.
pub(crate) fn is_wild(name: &[u8], n: usize) -> bool
    requires { 2 ≤ n }
    ensures { result ≡ is_wild name.now n }
{
    if name.len() == n {
        if name[0] == 1 {
            return name[1] == b'*';
        }
    }
    false
}
