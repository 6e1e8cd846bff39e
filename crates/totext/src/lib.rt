// The writer of names as people type them. Where the space has room for the widest text that a name of that length can have, the text is
// written as if it had no escapes where it looks so, and from a table where it does not, or has some: hardly any is measured. Otherwise it
// is measured, and then copied or written octet by octet.
#![tactic(auto)]

mod escaped;
mod octets;
mod plain;
mod shown;

ghost use Rattle.std.specs.Prelude.{◌≡◌, ◌≤◌, ◌<◌, length, Ok};
ghost use Rattle.space.specs.Octets.{overlay};
ghost use Rattle.name.specs.Wire.{reading_of};
ghost use Rattle.name.specs.Answer.{said, Fills};
ghost use Rattle.order.specs.Order.{folded_labels};
ghost use Rattle.text.specs.WriteText.{text_of, write_text_of};
ghost use Rattle.totext.specs.Private.AtOnce.{AtOnce};

use name::Refusal;
use text::character::is_printable;

// Writes the text of a name, which has len characters, to the front of space.
fn put_text(space: &mut [u8], len: usize, name: &[u8])
    requires { (reading_of name.now ≡ Ok tt) × (len ≡ length (text_of (folded_labels name.now))) × (len ≤ length space.old) }
    ensures { space.new ≡ overlay (text_of (folded_labels name.now)) space.old }
{
    if name.len() == 1 {
        space[0] = b'.';
        return;
    }
    if len + 1 == name.len() {
        plain::put_plain(space, name);
        return;
    }
    octets::put_labels(space, name);
}

// Writes the text of a name to the front of space, measured before it is written.
fn write_measured(name: &[u8], space: &mut [u8]) -> Result<usize, Refusal>
    ensures { Fills (write_text_of name.now) space.old (said result) space.new }
{
    let len = text::measuring::measure(name).map_err(Refusal::BadName)?;
    if space.len() < len {
        return Err(Refusal::NoRoom);
    }
    put_text(space, len, name);
    Ok(len)
}

// A guess whether a name's text may have no escapes, from the first and the last octet of its first label. Nothing is promised: a wrong
// guess costs time alone.
fn looks_plain(name: &[u8]) -> bool
    requires { (reading_of name.now ≡ Ok tt) × (1 < length name.now) }
{
    let n = name[0] as usize;
    is_printable(name[1]) & is_printable(name[n])
}

// Whether a length octet of a name is a dot's number, so that the test of its text takes it for a dot in a label: such a text may have no
// escapes, and to measure and copy it is faster than the table. Nothing is promised here either.
fn has_dotted_length(name: &[u8]) -> bool
    requires { reading_of name.now ≡ Ok tt }
{
    let mut p = 0;
    while p + 1 < name.len() {
        let from = p + 1;
        let o = name[p];
        if o == b'.' {
            return true;
        }
        p = from + o as usize;
    }
    false
}

// Writes the text of a name to the front of space, measured before it is written, where it has room, and tells how many characters it has.
fn put_measured(space: &mut [u8], name: &[u8]) -> usize
    requires { (reading_of name.now ≡ Ok tt) × (length (text_of (folded_labels name.now)) ≤ length space.old) }
    ensures { (result ≡ length (text_of (folded_labels name.now)))
        × (space.new ≡ overlay (text_of (folded_labels name.now)) space.old) }
{
    let Ok(n) = text::measuring::measure(name) else {
        return 0;
    };
    put_text(space, n, name);
    n
}

// Writes the text of a name that is not the root where the space has room for the widest, and tells how many characters it has; 0 where
// nothing is written. What is tried without escapes is no longer than the text, which is written over it where the test does not pass.
fn put_known(space: &mut [u8], name: &[u8]) -> usize
    requires { (reading_of name.now ≡ Ok tt) × (1 < length name.now) }
    ensures { AtOnce name.now space.old result space.new }
{
    if space.len() < (name.len() - 1) * 253 / 64 {
        return 0;
    }
    if looks_plain(name) {
        plain::put_plain(space, name);
        if shown::all_shown(space, name, name.len() - 1) {
            return name.len() - 1;
        }
        if has_dotted_length(name) {
            return put_measured(space, name);
        }
    }
    escaped::put_listed(space, name)
}

// The same for octets that may be no name, or the root.
fn put_roomy(space: &mut [u8], name: &[u8]) -> usize
    ensures { AtOnce name.now space.old result space.new }
{
    if name.len() < 2 {
        return 0;
    }
    if name::read(name).is_err() {
        return 0;
    }
    put_known(space, name)
}

// Writes the text of a name to the front of space: 4, then 9.
pub fn write_text(name: &[u8], space: &mut [u8]) -> Result<usize, Refusal>
    ensures { Fills (write_text_of name.now) space.old (said result) space.new }
{
    let n = put_roomy(space, name);
    if 0 < n {
        return Ok(n);
    }
    write_measured(name, space)
}
