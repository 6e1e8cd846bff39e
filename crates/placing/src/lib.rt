// What a plan stands for, measured, and written to any index of a space that has room for it: a denial's names stand back to back.
#![tactic(auto)]

ghost use Rattle.std.specs.Prelude.{◌≡◌, ◌+◌, ◌≤◌, length};
ghost use Rattle.space.specs.Octets.{overlay};
ghost use Rattle.space.specs.Private.Put.{put};
ghost use Rattle.plan.specs.Private.Planned.{planned, planned_size, Feasible};

use plan::Plan;
use writing::{is_short, label_len, put_front, put_label, put_short};

// How many octets a plan for a name stands for, whatever octet pads it.
pub fn plan_len(name: &[u8], plan: Plan) -> usize
    requires { Feasible name.now plan }
    ensures { result ≡ planned_size name.now plan }
{
    let kept = plan.kept;
    let tail = plan.tail;
    let rest = plan.rest;
    plan.front + label_len(kept, tail) + (name.len() - rest)
}

// Writes them to the front of a space, where the octet g pads, in the order of `write`, which has a caller of its own and is compiled into
// it.
fn put_first(name: &[u8], plan: Plan, g: u8, space: &mut [u8])
    requires { Feasible name.now plan × (planned_size name.now plan ≤ length space.old) }
    ensures { space.new ≡ overlay (planned g name.now plan) space.old }
{
    let front = plan.front;
    let kept = plan.kept;
    let tail = plan.tail;
    let rest = plan.rest;
    let start = front + label_len(kept, tail);
    let end = start + (name.len() - rest);
    if is_short(front, kept, tail, end, name.len() - plan.first) {
        put_short(space, name, plan.first, kept, plan.octet, rest);
        return;
    }
    space::put_end(space, end, name, rest);
    put_front(space, front, tail, start, g);
    if 0 < tail {
        put_label(space, front, name, plan.first, kept, plan.octet, tail, g);
    }
}

// Writes them to a space from the index at on.
pub fn put_plan(space: &mut [u8], at: usize, name: &[u8], plan: Plan, g: u8)
    requires { Feasible name.now plan × (at + planned_size name.now plan ≤ length space.old) }
    ensures { space.new ≡ put space.old at (planned g name.now plan) }
{
    put_first(name, plan, g, &mut space[at..]);
}
