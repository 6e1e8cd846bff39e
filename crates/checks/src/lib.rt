// The checks 1 to 6 of a name whose neighbours are asked for, and the place where its last labels above the apex begin.
#![tactic(auto)]

mod walking;

ghost use Rattle.std.specs.Prelude.{◌≡◌, List, [], ℕ, ◌≤◌, ltb, length};
ghost use Rattle.name.specs.Wire.{reading_of};
ghost use Rattle.name.specs.Answer.{refusal, refuse_if, refuse_broken, numbered};
ghost use Rattle.checks.specs.Private.Depths.{labels};
ghost use Rattle.checks.specs.Private.LastAbove.{Places, refusal_of};
ghost use Rattle.checks.specs.Private.Walks.{Walks};

use crate::walking::{first_octet, walk};
use name::{Name, Refusal};

// How many labels above the apex are allowed: all that a name can have, or at most one, two or three. Any other depth is refused, and the
// checks before that are those of one label.
#[derive(Clone, Copy)]
pub enum Depth {
    All,
    One,
    Two,
    Three,
    Other,
}

// One walk over the octets: where the last label before the place cut begins, 0 where there is none; 255 where the octets are no whole
// name, or no label begins at the cut. The place that it notes, and where that label ends, are chosen without a branch. The next length
// octet is the one at the index o behind the place q: the processor adds the two where it loads, so that a label takes no longer than that.
fn walk_last(name: &[u8], cut: usize) -> usize
    requires { length name.now ≤ 255 }
    ensures { Walks name.now cut 1 result }
{
    let mut p = 0;
    let mut o = first_octet(name);
    let mut at = 0;
    let mut end = 0;
    while 0 < o {
        if o > Name::MAX_LABEL {
            return Name::MAX_LEN;
        }
        let q = p + 1;
        let e = q + o;
        if name.len() <= e {
            return Name::MAX_LEN;
        }
        if e <= cut {
            at = p;
            end = e;
        }
        let rest = &name[q..];
        o = rest[o] as usize;
        p = e;
    }
    if p + 1 < name.len() {
        return Name::MAX_LEN;
    }
    if end == cut {
        return at;
    }
    Name::MAX_LEN
}

// The walk for a depth. All labels begin at the front, so that there the last one's place tells only whether the name is whole.
fn walk_for(name: &[u8], cut: usize, depth: Depth) -> usize
    requires { length name.now ≤ 255 }
    ensures { Walks name.now cut (labels depth) result }
{
    match depth {
        Depth::Two => walk(name, cut, Depth::Two),
        Depth::Three => walk(name, cut, Depth::Three),
        Depth::One => walk_last(name, cut),
        Depth::Other => walk_last(name, cut),
        Depth::All => {
            let at = walk_last(name, cut);
            if at == Name::MAX_LEN {
                return at;
            }
            0
        }
    }
}

// The checks 1 to 6: where the name's last labels above the apex begin, as many as the depth allows, and 0 where there are no others before
// them; 255 where the name is refused, and `why` tells for what. A whole name with a label beginning where the apex's octets do makes the
// apex whole too, so that it is not read by itself.
pub fn place(apex: &[u8], limit: u64, depth: Depth, name: &[u8]) -> usize
    ensures { Places apex.now limit (labels depth) name.now result }
{
    let most = limit as usize;
    if Name::MAX_LEN < most {
        return Name::MAX_LEN;
    }
    if most < name.len() {
        return Name::MAX_LEN;
    }
    if name.len() < apex.len() {
        return Name::MAX_LEN;
    }
    if most - apex.len() < 2 {
        return Name::MAX_LEN;
    }
    let cut = name.len() - apex.len();
    if space::same_folded(&name[0..], cut, &apex[0..]) {
        return walk_for(name, cut, depth);
    }
    Name::MAX_LEN
}

// The checks 4 and 5, and past them 6 without a test.
fn why_name(limit: usize, name: &[u8]) -> Refusal
    ensures { refuse_broken {A = List ℕ} (reading_of name.now) 4
        (refuse_if (ltb limit (length name.now)) 5 (refusal 6 [])) ≡ numbered result }
{
    if let Err(fault) = name::read(name) {
        return Refusal::BadName(fault);
    }
    if limit < name.len() {
        return Refusal::NameTooLong;
    }
    Refusal::NotUnderApex
}

// Why a name that the checks 1 to 6 do not let pass is refused: the checks 1 to 5 in rising number, and past them 6 without a test.
pub fn why(apex: &[u8], limit: u64, name: &[u8]) -> Refusal
    ensures { refusal_of {A = List ℕ} apex.now limit name.now ≡ numbered result }
{
    let most = limit as usize;
    if most < 1 {
        return Refusal::BadLimit;
    }
    if most > Name::MAX_LEN {
        return Refusal::BadLimit;
    }
    if let Err(fault) = name::read(apex) {
        return Refusal::BadApex(fault);
    }
    if most < apex.len() + 2 {
        return Refusal::ApexTooLong;
    }
    why_name(most, name)
}
