// The names of gaps, written back to back: those of one gap, or of two, as one where they touch. All are given as plans for the next closer
// name, so that each is written once, to where it is to stand: the wildcard has the same encloser, and need not be written itself.
#![tactic(auto)]

ghost use Rattle.std.specs.Prelude.{◌≡◌, [], ◌∷◌};
ghost use Rattle.name.specs.Answer.{answer, said};
ghost use Rattle.gaps.specs.Denial.{is_same, joined_gaps};
ghost use Rattle.gaps.specs.Denies.{Denies};
ghost use Rattle.plan.specs.Private.Planned.{planned};
ghost use Rattle.gapnames.specs.Private.Named.{wild_plan, Writable};

use name::{Name, Refusal};
use placing::{plan_len, put_plan};
use plan::Plan;

// Whether a plan, where the octet g pads, stands for the same name as another. It is written, to be compared, only where it has as many
// octets.
fn stands_for(name: &[u8], plan: Plan, g: u8, other: &[u8]) -> bool
    requires { Writable name.now plan }
    ensures { result ≡ is_same (planned g name.now plan) other.now }
{
    let n = plan_len(name, plan);
    if n == other.len() {
        let mut a = [0u8; Name::MAX_LEN];
        put_plan(&mut a, 0, name, plan, g);
        return space::same_folded(&a, 0, other);
    }
    false
}

// The wildcard above the encloser that a name has from the index rest on.
fn wild_plan(rest: usize) -> Plan
    ensures { result ≡ wild_plan rest }
{
    Plan {
        front: 0,
        first: 0,
        kept: 0,
        octet: b'*',
        tail: 1,
        rest,
    }
}

// Whether a plan stands for that wildcard, which is written, to be compared.
fn stands_for_wild(name: &[u8], plan: Plan, g: u8, rest: usize) -> bool
    requires { Writable name.now plan × Writable name.now (wild_plan rest) }
    ensures { result ≡ is_same (planned g name.now plan) (planned g name.now (wild_plan rest)) }
{
    let wild = wild_plan(rest);
    let n = plan_len(name, wild);
    let mut a = [0u8; Name::MAX_LEN];
    put_plan(&mut a, 0, name, wild, g);
    stands_for(name, plan, g, &a[..n])
}

// Writes the names of one gap, for which these plans stand, where the octets g and h pad: 9.
pub fn write_one(
    name: &[u8],
    a: Plan,
    g: u8,
    b: Plan,
    h: u8,
    space: &mut [u8],
) -> Result<usize, Refusal>
    requires { Writable name.now a × Writable name.now b }
    ensures { Denies (answer (planned g name.now a ∷ planned h name.now b ∷ []))
        space.old (said result) space.new }
{
    let i = plan_len(name, a);
    let j = plan_len(name, b);
    if space.len() < i + j {
        return Err(Refusal::NoRoom);
    }
    put_plan(space, 0, name, a, g);
    put_plan(space, i, name, b, h);
    Ok(i + 256 * j)
}

// Writes the names of two gaps in the same way, where the octet g pads, and 0 the last one: 9.
fn write_two(
    name: &[u8],
    a: Plan,
    b: Plan,
    c: Plan,
    g: u8,
    d: Plan,
    space: &mut [u8],
) -> Result<usize, Refusal>
    requires { Writable name.now a × Writable name.now b × Writable name.now c × Writable name.now d }
    ensures { Denies
        (answer (planned g name.now a ∷ planned g name.now b
        ∷ planned g name.now c ∷ planned 0 name.now d ∷ []))
        space.old (said result) space.new }
{
    let i = plan_len(name, a);
    let j = plan_len(name, b);
    let k = plan_len(name, c);
    let l = plan_len(name, d);
    let p = i + j;
    let q = p + k;
    if space.len() < q + l {
        return Err(Refusal::NoRoom);
    }
    put_plan(space, 0, name, a, g);
    put_plan(space, i, name, b, g);
    put_plan(space, p, name, c, g);
    put_plan(space, q, name, d, 0);
    Ok(i + 256 * (j + 256 * (k + 256 * l)))
}

// Writes the gaps of a name and of the wildcard above the encloser that it has from the index rest on, joined where they touch: 9. These
// plans stand for the owners and next names; the octet g pads, and 0 the wildcard's next name. The lengths are looked at here too, so that
// no plan is copied for a comparison that is seldom made.
pub fn write_joined(
    name: &[u8],
    rest: usize,
    a: Plan,
    b: Plan,
    c: Plan,
    g: u8,
    d: Plan,
    space: &mut [u8],
) -> Result<usize, Refusal>
    requires { Writable name.now (wild_plan rest) × Writable name.now a × Writable name.now b
        × Writable name.now c × Writable name.now d }
    ensures { Denies (answer (joined_gaps name.now (planned g name.now a) (planned g name.now b)
        (planned g name.now (wild_plan rest)) (planned g name.now c) (planned 0 name.now d)))
        space.old (said result) space.new }
{
    if plan_len(name, b) == name.len() - rest + 2 {
        if stands_for_wild(name, b, g, rest) {
            return write_one(name, a, g, d, 0, space);
        }
    }
    if plan_len(name, d) == name.len() {
        if stands_for(name, d, 0, name) {
            return write_one(name, c, g, b, g, space);
        }
    }
    write_two(name, a, b, c, g, d, space)
}
