// The plan of a neighbour, over the way, the alphabet and the depth: the checks, and past them what the answer is made of.
#![tactic(auto)]

ghost use Rattle.std.specs.Prelude.{◌≡◌};
ghost use Rattle.zone.specs.Steps.{greatest};
ghost use Rattle.alphabet.specs.Alphabets.{allowed};
ghost use Rattle.checks.specs.Private.Depths.{labels};
ghost use Rattle.plan.specs.Private.Asked.{Asks, stepped, Plans};
ghost use Rattle.plan.specs.Private.Nearby.{is_before, is_past, steps_of, full_labels, neighbour_of, Draws};

use alphabet::Alphabet;
use checks::{Depth, place, why};
use climbing::plan_after;
use name::{Name, Refusal};
use plan::lowering::plan_before;
use plan::{Plan, Way};
use spelling::all_spelled;

// The octets that full labels take, as many as a depth allows, where it does not allow all; more than any limit where the depth is refused.
fn full_labels(depth: Depth) -> usize
    ensures { result ≡ full_labels depth }
{
    match depth {
        Depth::All => 0,
        Depth::One => 64,
        Depth::Two => 128,
        Depth::Three => 192,
        Depth::Other => 256,
    }
}

// Whether the neighbour before the name is asked for.
fn is_before(way: Way) -> bool
    ensures { result ≡ is_before way }
{
    match way {
        Way::Before => true,
        Way::After => false,
        Way::Past => false,
    }
}

// Whether what is past the name and all names under it is asked for.
fn is_past(way: Way) -> bool
    ensures { result ≡ is_past way }
{
    match way {
        Way::Before => false,
        Way::After => false,
        Way::Past => true,
    }
}

// The two plans that go up the order are made in one place: what has one caller is compiled into it.
fn plan(
    way: Way,
    alphabet: Alphabet,
    depth: Depth,
    name: &[u8],
    cut: usize,
    at: usize,
    limit: usize,
) -> Plan
    requires { Asks (allowed alphabet) (labels depth) name.now cut at limit }
    ensures { Plans (greatest (allowed alphabet)) name.now
        (stepped (steps_of way (allowed alphabet)) name.now cut limit (labels depth)) result }
{
    if is_before(way) {
        return plan_before(alphabet, depth, name, cut, at, limit);
    }
    plan_after(is_past(way), alphabet, depth, name, cut, at, limit)
}

// Draws the neighbour of a name: the checks 1 to 6, 7 where the depth is limited, 12, then the plan.
pub fn draw(
    way: Way,
    alphabet: Alphabet,
    depth: Depth,
    apex: &[u8],
    limit: u64,
    name: &[u8],
) -> Result<Plan, Refusal>
    ensures { Draws (neighbour_of way alphabet depth apex.now limit name.now)
        (greatest (allowed alphabet)) name.now result }
{
    let at = place(&apex[0..], limit, depth, &name[0..]);
    if at == Name::MAX_LEN {
        return Err(why(apex, limit, name));
    }
    if (limit as usize) < apex.len() + full_labels(depth) {
        return Err(Refusal::NoFullLabel);
    }
    let cut = name.len() - apex.len();
    if all_spelled(alphabet, name, cut) {
        return Ok(plan(way, alphabet, depth, name, cut, at, limit as usize));
    }
    Err(Refusal::NotInAlphabet)
}
