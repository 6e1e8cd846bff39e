// Writing what a plan stands for to the front of a space: the room is measured first, so that a refusal touches nothing.
#![tactic(auto)]

ghost use Rattle.std.specs.Prelude.{◌≡◌, [], ◌∷◌, ◌++◌, true, ◌+◌, ◌≤◌, ◌<◌, length, take, drop, replicate};
ghost use Rattle.space.specs.Octets.{overlay};
ghost use Rattle.space.specs.Private.Put.{put, folded_part};
ghost use Rattle.space.specs.Private.Written.{Written};
ghost use Rattle.name.specs.Answer.{Fills, answer, said};
ghost use Rattle.plan.specs.Private.Planned.{planned, label_size, Feasible};
ghost use Rattle.writing.specs.Private.Prepared.{sizes, Prepared};
ghost use Rattle.writing.specs.Private.Short.{Short, ShortFits, short_octets};

use name::Refusal;
use plan::Plan;
use space::put_folded;

// Writes the length octets of the greatest labels that take the first n octets of d. All but the first label have 63 octets.
fn put_sizes(d: &mut [u8], n: usize)
    requires { (1 ≤ n) × (n ≤ 256) × (n ≤ length d.old) }
    ensures { d.new ≡ sizes 3 n n d.old }
{
    d[n.saturating_sub(64)] = 63;
    d[n.saturating_sub(128)] = 63;
    d[n.saturating_sub(192)] = 63;
    d[0] = ((n + 63) % 64) as u8;
}

// Writes the octet g to the first start octets of d, and the length octets of the greatest labels that take front of them. Where a label
// alone stands there, with no greatest octet in it, there is nothing to write.
pub fn put_front(d: &mut [u8], front: usize, tail: usize, start: usize, g: u8)
    requires { (front ≤ 256) × (front ≡ 1 → ⊥) × (tail ≤ 63) × (front + tail ≤ start) × (start ≤ length d.old) }
    ensures { Prepared g front tail start d.old d.new }
{
    if 1 < front + tail {
        space::fill(d, 0, start, g);
        if 0 < front {
            put_sizes(d, front);
        }
    }
}

// Copies kept octets of s from the index first on, folded, to d from the index at on; the octet behind them may change too. Few are copied
// as a block of 16, where 16 octets g or more stand behind them, which are then written again.
fn put_kept(d: &mut [u8], at: usize, s: &[u8], first: usize, kept: usize, tail: usize, g: u8)
    requires { (first + kept ≤ length s.now) × (at + kept + tail ≤ length d.old) × (1 ≤ tail) × (tail ≤ 63)
        × (16 < tail → take 16 (drop (at + kept + 1) d.old) ≡ replicate 16 g) }
    ensures { Written d.old at at (folded_part s.now first kept) (at + kept) (at + kept + 1) d.new }
{
    if kept == 0 {
        return;
    }
    if kept < 16 {
        if 16 < tail {
            if 16 <= s.len() - first {
                space::put_block(d, at, s, first);
                space::fill(d, at + kept + 1, 16, g);
                return;
            }
        }
    }
    put_folded(d, at, s, first, kept);
}

// Writes a label to d from the index at on: kept octets of s from the index first on, folded, and then this octet. The octets g that pad it
// stand there already.
pub fn put_label(
    d: &mut [u8],
    at: usize,
    s: &[u8],
    first: usize,
    kept: usize,
    octet: u8,
    tail: usize,
    g: u8,
)
    requires { (first + kept ≤ length s.now) × (at + 1 + kept + tail ≤ length d.old) × (1 ≤ tail) × (kept + tail ≤ 63)
        × (16 < tail → take 16 (drop (at + 1 + kept + 1) d.old) ≡ replicate 16 g) }
    ensures { d.new ≡ put d.old at ((kept + tail) ∷ folded_part s.now first kept ++ octet ∷ []) }
{
    put_kept(d, at + 1, s, first, kept, tail, g);
    d[at + 1 + kept] = octet;
    d[at] = (kept + tail) as u8;
}

// How many octets a changed label takes, with its length octet.
pub fn label_len(kept: usize, tail: usize) -> usize
    requires { kept + tail ≤ 63 }
    ensures { result ≡ label_size kept tail }
{
    if tail == 0 {
        return 0;
    }
    kept + tail + 1
}

// Whether a plan is a label of few octets with one more behind them, and the rest: nothing in front, no padding. The label can then be
// copied as a block of 16 octets, and the rest written over what is too much of it. The plan stands for end octets, and the name has left
// octets from the first one on that the label keeps.
pub fn is_short(front: usize, kept: usize, tail: usize, end: usize, left: usize) -> bool
    requires { (front ≤ 256) × (tail ≤ 63) }
    ensures { result ≡ true → Short front kept tail end left }
{
    if front + tail == 1 {
        if kept < 16 {
            if 18 <= end {
                return 16 <= left;
            }
        }
    }
    false
}

// Writes such a label and the rest of the name s to the front of d.
pub fn put_short(d: &mut [u8], s: &[u8], first: usize, kept: usize, octet: u8, rest: usize)
    requires { ShortFits d.old s.now first kept rest }
    ensures { d.new ≡ overlay (short_octets s.now first kept octet rest) d.old }
{
    if 0 < kept {
        space::put_block(d, 1, s, first);
    }
    put_folded(d, kept + 2, s, rest, s.len() - rest);
    d[kept + 1] = octet;
    d[0] = (kept + 1) as u8;
}

// Writes the octets that a plan for a name stands for, where g is the greatest octet. A short label comes before the rest of the name.
// Otherwise the rest comes first, since it may be copied with octets before it, and the label last.
pub fn write(g: u8, name: &[u8], plan: Plan, space: &mut [u8]) -> Result<usize, Refusal>
    requires { Feasible name.now plan }
    ensures { Fills (answer (planned g name.now plan)) space.old (said result) space.new }
{
    let front = plan.front;
    let kept = plan.kept;
    let tail = plan.tail;
    let rest = plan.rest;
    let start = front + label_len(kept, tail);
    let end = start + (name.len() - rest);
    if space.len() < end {
        return Err(Refusal::NoRoom);
    }
    if is_short(front, kept, tail, end, name.len() - plan.first) {
        put_short(space, name, plan.first, kept, plan.octet, rest);
        return Ok(end);
    }
    space::put_end(space, end, name, rest);
    put_front(space, front, tail, start, g);
    if 0 < tail {
        put_label(space, front, name, plan.first, kept, plan.octet, tail, g);
    }
    Ok(end)
}
