// The plans of the two ends of a gap, in the full alphabet and at any depth: the predecessor of a name that is not the apex, and the first
// name past it and all names under it. They ask for a name that has passed the checks, so that one reading of it does for both.
#![tactic(auto)]

ghost use Rattle.std.specs.Prelude.{◌≤◌};
ghost use Rattle.zone.specs.Steps.{greatest, predecessor_steps};
ghost use Rattle.alphabet.specs.Alphabets.{allowed};
ghost use Rattle.plan.specs.Private.Asked.{Asks, stepped, Plans};
ghost use Rattle.plan.specs.Private.Nearby.{past_steps};

use alphabet::Alphabet;
use climbing::{climb, extended, extends, found_plan};
use name::Name;
use plan::Plan;
use plan::lowering::{front_len, padding, unchanged};

// The plan of the predecessor: that of `plan_before`, which has a caller of its own and is compiled into it.
pub fn owner_plan(name: &[u8], cut: usize, limit: usize) -> Plan
    requires { Asks (allowed Alphabet.Full) 127 name.now cut 0 limit × (1 ≤ cut) }
    ensures { Plans (greatest (allowed Alphabet.Full)) name.now
        (stepped (predecessor_steps (allowed Alphabet.Full)) name.now cut limit 127) result }
{
    let left = limit - name.len();
    let size = name[0] as usize;
    let last = space::lower(name[size]);
    let octet = alphabet::previous_full(last);
    if octet < last {
        let pad = padding(size, left);
        return Plan {
            front: front_len(Name::MAX_LABELS, left - pad),
            first: 1,
            kept: size - 1,
            octet,
            tail: pad + 1,
            rest: size + 1,
        };
    }
    if size == 1 {
        return unchanged(0, 2);
    }
    Plan {
        front: front_len(Name::MAX_LABELS, left + 1),
        first: 1,
        kept: size - 2,
        octet: space::lower(name[size - 1]),
        tail: 1,
        rest: size + 1,
    }
}

// The plan of the first name past a name and all names under it: that of `climbed`, which has a caller of its own.
pub fn next_plan(name: &[u8], cut: usize, limit: usize) -> Plan
    requires { Asks (allowed Alphabet.Full) 127 name.now cut 0 limit }
    ensures { Plans (greatest (allowed Alphabet.Full)) name.now
        (stepped (past_steps (allowed Alphabet.Full)) name.now cut limit 127) result }
{
    if extends(name, 0, cut, limit) {
        return extended(Alphabet::Full, name, 0);
    }
    found_plan(
        Alphabet::Full,
        name,
        climb(Alphabet::Full, &name[0..], 0, cut, limit),
    )
}
