// The first way to write, where the text was measured: octet by octet. It writes no octet of the space beside the characters.
ghost use Rattle.std.specs.Prelude.{◌≡◌, ◌+◌, ◌≤◌, ◌<◌, length, Ok};
ghost use Rattle.name.specs.Wire.{reading_of};
ghost use Rattle.space.specs.Octets.{overlay};
ghost use Rattle.space.specs.Fold.{lower_of};
ghost use Rattle.space.specs.Private.Put.{folded_part};
ghost use Rattle.space.specs.Private.Written.{Written};
ghost use Rattle.order.specs.Order.{folded_labels};
ghost use Rattle.text.specs.WriteText.{characters_of, label_text, text_of};

use text::character::width;

// Writes the characters of an octet from index at of space on, and tells where they end.
fn put_octet(space: &mut [u8], at: usize, o: u8) -> usize
    requires { at + length (characters_of (lower_of o)) ≤ length space.old }
    ensures { Written space.old at at (characters_of (lower_of o)) result result space.new }
{
    let w = width(o);
    let c = space::lower(o);
    if w == 1 {
        space[at] = c;
        return at + 1;
    }
    space[at] = b'\\';
    if w == 2 {
        space[at + 1] = c;
        return at + 2;
    }
    let t = c / 10;
    space[at + 1] = b'0' + t / 10;
    space[at + 2] = b'0' + t % 10;
    space[at + 3] = b'0' + c % 10;
    at + 4
}

// Writes those of n octets of a name from index from on, and tells where they end.
fn put_octets(space: &mut [u8], at: usize, name: &[u8], from: usize, n: usize) -> usize
    requires { (from + n ≤ length name.now) × (at + length (label_text (folded_part name.now from n)) ≤ length space.old) }
    ensures { Written space.old at at (label_text (folded_part name.now from n)) result result space.new }
{
    let mut end = at;
    for i in 0..n {
        end = put_octet(space, end, name[from + i]);
    }
    end
}

// Writes the text of a name that is not the root to the front of space.
pub(crate) fn put_labels(space: &mut [u8], name: &[u8])
    requires { (reading_of name.now ≡ Ok tt) × (1 < length name.now)
        × (length (text_of (folded_labels name.now)) ≤ length space.old) }
    ensures { space.new ≡ overlay (text_of (folded_labels name.now)) space.old }
{
    let mut p = 0;
    let mut at = 0;
    while p + 1 < name.len() {
        let from = p + 1;
        let n = name[p] as usize;
        let end = put_octets(space, at, name, from, n);
        space[end] = b'.';
        at = end + 1;
        p = from + n;
    }
}
