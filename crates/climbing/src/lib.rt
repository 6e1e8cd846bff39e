// The plan of a successor: which label of the name changes. A label is tried, and its parent where it cannot change.
#![tactic(auto)]

ghost use Rattle.std.specs.Prelude.{◌≡◌, List, true, false, cond, ℕ, ◌+◌, ◌≤◌, ◌<◌, length, get_or, replicate};
ghost use Rattle.space.specs.Private.Put.{folded_part};
ghost use Rattle.zone.specs.Steps.{greatest};
ghost use Rattle.alphabet.specs.Alphabets.{allowed};
ghost use Rattle.checks.specs.Private.Depths.{labels};
ghost use Rattle.plan.specs.Private.Asked.{Asks, Begins, child_fits, stepped, Plans, Tries, climbed};
ghost use Rattle.checks.specs.Private.Climbs.{past};
ghost use Rattle.climbing.specs.Private.Raised.{Trailing, LastOther, extended_plan, raised_plan, can_extend, Finds, Located};
ghost use Rattle.plan.specs.Private.Nearby.{after_steps};

use alphabet::Alphabet;
use checks::Depth;
use name::Name;
use plan::Plan;
use plan::lowering::{more, unchanged};

// Whether the 8 octets from the index p on are all g, folded. Where it tells no, nothing is promised: they are then looked at one by one.
fn full8(octets: &[u8], p: usize, g: u8) -> bool
    requires { p + 8 ≤ length octets.now }
    ensures { result ≡ true → folded_part octets.now p 8 ≡ replicate 8 g }
{
    let mut full = true;
    for k in 0..8 {
        full = full & (space::lower(octets[p + k]) == g);
    }
    full
}

// How many of the count octets from the index first on are left where blocks of 8 octets g are taken off their end. The number is free:
// those behind it are all g, and the others are looked at one by one.
fn before_full(octets: &[u8], first: usize, count: usize, g: u8) -> usize
    requires { first + count ≤ length octets.now }
    ensures { Trailing g octets.now first count result }
{
    let mut k = count;
    // no range of blocks: they end at what they hold, and what is asked for is the number of octets that is left
    while 8 <= k && full8(octets, first + (k - 8), g) {
        k -= 8;
    }
    k
}

// One more than the index of the last octet that can be raised among the count octets from the index first on, or 0: any but the greatest.
fn last_below(alphabet: Alphabet, octets: &[u8], first: usize, count: usize) -> usize
    requires { first + count ≤ length octets.now }
    ensures { LastOther (greatest (allowed alphabet)) octets.now first count result }
{
    let g = alphabet::greatest(alphabet);
    for k in (0..before_full(octets, first, count, g)).rev() {
        if space::lower(octets[first + k]) != g {
            return k + 1;
        }
    }
    0
}

// The label that begins at the place at, with the least octet at its end.
pub fn extended(alphabet: Alphabet, name: &[u8], at: usize) -> Plan
    requires { past name.now at < length name.now }
    ensures { result ≡ extended_plan (allowed alphabet) name.now at }
{
    let size = name[at] as usize;
    let first = at + 1;
    Plan {
        front: 0,
        first,
        kept: size,
        octet: alphabet::least(alphabet),
        tail: 1,
        rest: first + size,
    }
}

// The label that begins at the place at, with its octet at this index raised and those after that dropped.
fn raised(alphabet: Alphabet, name: &[u8], at: usize, index: usize) -> Plan
    requires { (past name.now at < length name.now) × (index < get_or name.now at 0) }
    ensures { result ≡ raised_plan (allowed alphabet) name.now at index }
{
    let size = name[at] as usize;
    let first = at + 1;
    Plan {
        front: 0,
        first,
        kept: index,
        octet: alphabet::next(alphabet, space::lower(name[first + index])),
        tail: 1,
        rest: first + size,
    }
}

// Tries the label that begins at the place at: the least octet at its end if label and name have room, or else an octet raised, or else its
// parent. The answer is a number, which comes back in a register: the place of the label that changes, plus 256 times 64 where it gets an
// octet more, or 256 times one more than the index of the octet that is raised.
#[cycle(climb_try_label)]
fn try_label(alphabet: Alphabet, name: &[u8], at: usize, cut: usize, limit: usize) -> usize
    requires { Tries (allowed alphabet) name.now at cut limit × (at < cut) }
    ensures { Finds (allowed alphabet) name.now (climbed (allowed alphabet) name.now at cut limit) result }
{
    let size = name[at] as usize;
    if size < Name::MAX_LABEL {
        if name.len() - at < limit {
            return at + 256 * 64;
        }
    }
    let k = last_below(alphabet, name, at + 1, size);
    if 0 < k {
        return at + 256 * k;
    }
    climb(alphabet, &name[0..], at + 1 + size, cut, limit)
}

// Goes on with the parent that begins at the place at; where that is the cut, the parent is the apex.
#[cycle(climb_try_label)]
pub fn climb(alphabet: Alphabet, name: &[u8], at: usize, cut: usize, limit: usize) -> usize
    requires { Tries (allowed alphabet) name.now at cut limit }
    ensures { Finds (allowed alphabet) name.now (climbed (allowed alphabet) name.now at cut limit) result }
{
    if cut <= at {
        return at;
    }
    try_label(alphabet, name, at, cut, limit)
}

// Whether the label that begins at the place at, above the apex, has room for an octet more, and the name too.
pub fn extends(name: &[u8], at: usize, cut: usize, limit: usize) -> bool
    requires { cut ≤ length name.now }
    ensures { result ≡ can_extend name.now at cut limit }
{
    if at < cut {
        if (name[at] as usize) < Name::MAX_LABEL {
            return name.len() - at < limit;
        }
    }
    false
}

// The plan of what a climb found, whatever octets it makes.
pub fn found_plan(alphabet: Alphabet, name: &[u8], found: usize) -> Plan
    requires { Located (allowed alphabet) name.now found }
    ensures { (octets : List ℕ) → Finds (allowed alphabet) name.now octets found
        → Plans (greatest (allowed alphabet)) name.now octets result }
{
    let place = found % 256;
    let index = found / 256;
    if index == 0 {
        return unchanged(0, place);
    }
    if index == 64 {
        return extended(alphabet, name, place);
    }
    raised(alphabet, name, place, index - 1)
}

// The plan of the climb from the label that begins at the place at. That label is tried here for an octet more, since that is what most
// names come to, and a climb is a call.
fn climbed(alphabet: Alphabet, name: &[u8], at: usize, cut: usize, limit: usize) -> Plan
    requires { Tries (allowed alphabet) name.now at cut limit }
    ensures { Plans (greatest (allowed alphabet)) name.now (climbed (allowed alphabet) name.now at cut limit) result }
{
    if extends(name, at, cut, limit) {
        return extended(alphabet, name, at);
    }
    found_plan(alphabet, name, climb(alphabet, &name[0..], at, cut, limit))
}

// Whether depth and limit allow one label more in front of a name whose labels above the apex are those before the place cut; the last of
// them, as many as the depth allows, begin at the place at. Past all names under it, none is.
fn allows_child(past: bool, depth: Depth, name: &[u8], cut: usize, at: usize, limit: usize) -> bool
    requires { Begins (labels depth) name.now cut at limit }
    ensures { result ≡ cond past false (child_fits (labels depth) name.now cut at limit) }
{
    if past {
        return false;
    }
    if name.len() + 2 <= limit {
        if at == 0 {
            return 0 < more(depth, name, cut);
        }
    }
    false
}

// Where the climb begins: at the last labels that the depth allows, or at all where what is past the name is asked for.
fn start(past: bool, at: usize) -> usize
    ensures { result ≡ cond past 0 at }
{
    if past {
        return 0;
    }
    at
}

// The plan of the successor of a name, or of what is past it and all names under it: the least label in front of its labels from the place
// at on if one more is allowed, or else a label changed.
pub fn plan_after(
    past: bool,
    alphabet: Alphabet,
    depth: Depth,
    name: &[u8],
    cut: usize,
    at: usize,
    limit: usize,
) -> Plan
    requires { Asks (allowed alphabet) (labels depth) name.now cut at limit }
    ensures { Plans (greatest (allowed alphabet)) name.now
        (stepped (after_steps past (allowed alphabet)) name.now cut limit (labels depth)) result }
{
    if allows_child(past, depth, name, cut, at, limit) {
        return Plan {
            front: 0,
            first: 0,
            kept: 0,
            octet: alphabet::least(alphabet),
            tail: 1,
            rest: at,
        };
    }
    climbed(alphabet, name, start(past, at), cut, limit)
}
