// The second way to write: a text without escapes is a copy of the name, with dots over its length octets.
ghost use Rattle.std.specs.Prelude.{◌≡◌, ◌+◌, ◌≤◌, length, Ok};
ghost use Rattle.name.specs.Wire.{reading_of};
ghost use Rattle.space.specs.Octets.{overlay};
ghost use Rattle.order.specs.Order.{folded_labels};
ghost use Rattle.totext.specs.Private.Shown.{joined};

// Writes the octets of a name's labels with a dot behind each to the front of space: a folded copy of the name from its second octet on,
// with dots in place of length octets and the last octet. Where each octet is one character, this is the text.
pub(crate) fn put_plain(space: &mut [u8], name: &[u8])
    requires { (reading_of name.now ≡ Ok tt) × (length name.now ≤ length space.old + 1) }
    ensures { space.new ≡ overlay (joined (folded_labels name.now)) space.old }
{
    space::put_folded(space, 0, name, 1, name.len() - 1);
    let mut p = 0;
    while p + 1 < name.len() {
        let from = p + 1;
        let n = name[p] as usize;
        space[p + n] = b'.';
        p = from + n;
    }
}
