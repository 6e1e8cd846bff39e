// The writer of sorting keys. The labels of a name are taken from the left and written from the end of the key towards its front.
#![tactic(auto)]

ghost use Rattle.std.specs.Prelude.{◌≡◌, [], map, true, ◌+◌, ◌-◌, ◌≤◌, length, Ok};
ghost use Rattle.space.specs.Octets.{overlay};
ghost use Rattle.name.specs.Wire.{reading_of};
ghost use Rattle.name.specs.Labels.{labels_of};
ghost use Rattle.space.specs.Fold.{lower_of};
ghost use Rattle.space.specs.Private.Put.{folded_part};
ghost use Rattle.space.specs.Private.Written.{Written, Room};
ghost use Rattle.name.specs.Answer.{said, Fills};
ghost use Rattle.order.specs.Order.{folded_labels};
ghost use Rattle.key.specs.Key.{coded, label_key, key_of, write_key_of};
ghost use Rattle.tokey.specs.Private.Codes.{codes};
ghost use Rattle.key.specs.Small.{small_in};
ghost use Rattle.tokey.specs.Private.Measured.{measured_of};

use name::{Fault, Name, Refusal};

// How many octets are 0 or 1.
fn count_small(octets: &[u8]) -> u8
    requires { length octets.now ≤ 255 }
    ensures { result ≡ small_in octets.now }
{
    let mut n = 0u8;
    for &o in octets {
        if o < 2 {
            n += 1;
        }
    }
    n
}

// Whether octets are one whole name, and how many of its length octets are 1; if not, why.
fn measure(octets: &[u8]) -> Result<usize, Fault>
    ensures { result ≡ measured_of (reading_of octets.now) (small_in (map length (labels_of octets.now))) }
{
    let mut n = 0;
    let mut p = 0;
    while p < octets.len() {
        let o = octets[p] as usize;
        let q = p + 1;
        if o == 0 {
            if q < octets.len() {
                return Err(Fault::LeftOver(q));
            }
            return Ok(n);
        }
        if o > Name::MAX_LABEL {
            return Err(Fault::BadLength(p));
        }
        let e = q + o;
        if e >= Name::MAX_LEN {
            return Err(Fault::TooLong(p));
        }
        if o == 1 {
            n += 1;
        }
        p = e;
    }
    Err(Fault::CutShort(octets.len()))
}

// The length of the key of a name, of which single length octets are 1. Among all its octets these and the last are no label's.
fn key_length(name: &[u8], single: usize) -> usize
    requires { (reading_of name.now ≡ Ok tt) × (single ≡ small_in (map length (labels_of name.now))) }
    ensures { result ≡ length (key_of (folded_labels name.now)) }
{
    name.len() + count_small(name) as usize - 2 - single
}

// Writes an octet as a key has it before index end of space, and tells where that begins.
fn put_octet(space: &mut [u8], end: usize, o: u8) -> usize
    requires { Room space.old end (coded (lower_of o) []) }
    ensures { Written space.old result result (coded (lower_of o) []) end end space.new }
{
    let at = end - 1;
    if o < 2 {
        space[at] = o + 1;
        space[at - 1] = 1;
        return at - 1;
    }
    space[at] = space::lower(o);
    at
}

// The same without a branch, since a processor cannot foresee which octets are 0 or 1: two octets are written, and where one is enough
// the first of them is of no use.
fn put_two(space: &mut [u8], end: usize, o: u8) -> usize
    requires { (2 ≤ end) × (end ≤ length space.old) }
    ensures { Written space.old (end - 2) result (coded (lower_of o) []) end end space.new }
{
    let small = o < 2;
    let mut c = space::lower(o);
    let mut at = end - 1;
    space[end - 2] = 1;
    if small {
        c = o + 1;
    }
    space[at] = c;
    if small {
        at = end - 2;
    }
    at
}

// Writes n octets of a name from the place from on as a key has them before index end of space, and tells where they begin. What is of
// no use before an octet is written over with the octet before it, and the first octet leaves nothing before it.
fn put_octets(space: &mut [u8], end: usize, name: &[u8], from: usize, n: usize) -> usize
    requires { (from + n ≤ length name.now) × (1 ≤ n) × Room space.old end (codes (folded_part name.now from n)) }
    ensures { Written space.old result result (codes (folded_part name.now from n)) end end space.new }
{
    let mut at = end;
    for i in (1..n).rev() {
        at = put_two(space, at, name[from + i]);
    }
    put_octet(space, at, name[from])
}

// Writes the key of a label, n octets of a name from the place from on, before index end of space, and tells where it begins. plain
// says that no octet of the label is 0 or 1; then 4 octets and more are copied in blocks.
fn put_label(space: &mut [u8], end: usize, name: &[u8], from: usize, n: usize, plain: bool) -> usize
    requires n_in_bounds { (from + n ≤ length name.now) × (1 ≤ n) × Room space.old end (label_key (folded_part name.now from n) []) }
    requires n_value { plain ≡ true → small_in (folded_part name.now from n) ≡ 0 }
    ensures { Written space.old result result (label_key (folded_part name.now from n) []) end end space.new }
{
    let last = end - 1;
    space[last] = 0;
    if plain & (4 <= n) {
        space::put_folded(space, last - n, name, from, n);
        return last - n;
    }
    put_octets(space, last, name, from, n)
}

// Writes the key of a name, which has len octets, to the front of space. Where what is left of it is as long as what is left of
// the name, no label octet is left that is 0 or 1.
fn put_key(space: &mut [u8], len: usize, name: &[u8])
    requires { (reading_of name.now ≡ Ok tt) × (len ≡ length (key_of (folded_labels name.now))) × (len ≤ length space.old) }
    ensures { space.new ≡ overlay (key_of (folded_labels name.now)) space.old }
{
    let mut p = 0;
    let mut end = len;
    while 0 < end {
        let from = p + 1;
        let n = name[p] as usize;
        end = put_label(space, end, name, from, n, end + from == name.len());
        p = from + n;
    }
}

// Writes the sorting key of a name to the front of space: 4, then 9.
pub fn write_key(name: &[u8], space: &mut [u8]) -> Result<usize, Refusal>
    ensures { Fills (write_key_of name.now) space.old (said result) space.new }
{
    let single = measure(name).map_err(Refusal::BadName)?;
    let len = key_length(name, single);
    if space.len() < len {
        return Err(Refusal::NoRoom);
    }
    put_key(space, len, name);
    Ok(len)
}
