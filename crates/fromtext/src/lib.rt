// The reader of names as people type them: one pass checks a text and makes the name, which is copied to the space where it has room. It
// goes by words of eight characters as far as they lead, and then character by character.
#![tactic(auto)]

mod runs;

ghost use Rattle.std.specs.Prelude.{◌≡◌, true, ◌-◌, ◌≤◌, ◌<◌, min, length, take, drop, get_or};
ghost use Rattle.name.specs.Answer.{answer, space_after};
ghost use Rattle.text.specs.Characters.{digit, plain};
ghost use Rattle.text.specs.ReadText.{fits_in};
ghost use Rattle.fromtext.specs.Private.Parse.{number_at, Escapes, Parses};
ghost use Rattle.text.specs.Reads.{Reads};

use crate::runs::read_words;
use name::Name;
use text::character::{is_digit, is_printable};
use text::{TextRead, TextRefusal};

// The octets of a name, and room for a word behind them.
pub(crate) const WIDE: usize = 263;

// The number of the digits of v, followed by the digit at the place p; 256 where none stands there, or the number is above most.
fn with_digit(text: &[u8], p: usize, v: usize, most: usize) -> usize
    requires { v ≤ 25 }
    ensures { result ≡ number_at most v (drop p text.now) }
{
    if text.len() <= p {
        return 256;
    }
    let c = text[p];
    if !is_digit(c) {
        return 256;
    }
    let n = 10 * v + (c - b'0') as usize;
    if most < n {
        return 256;
    }
    n
}

// The octet of the three digits at the place p, of which the first is one.
fn number(text: &[u8], p: usize) -> Result<(u8, usize), usize>
    requires { (p < length text.now) × (digit (get_or text.now p 0) ≡ true) }
    ensures { Escapes text.now p result }
{
    let hundreds = with_digit(text, p, 0, 2);
    if hundreds > 255 {
        return Err(p);
    }
    let tens = with_digit(text, p + 1, hundreds, 25);
    if tens > 255 {
        return Err(p + 1);
    }
    let octet = with_digit(text, p + 2, tens, 255);
    if octet > 255 {
        return Err(p + 2);
    }
    Ok((octet as u8, p + 3))
}

// The octet behind a backslash, where p is the place after it.
fn after_backslash(text: &[u8], p: usize) -> Result<(u8, usize), usize>
    requires { p ≤ length text.now }
    ensures { Escapes text.now p result }
{
    if p == text.len() {
        return Err(p);
    }
    let c = text[p];
    if is_digit(c) {
        return number(text, p);
    }
    if is_printable(c) {
        return Ok((c, p + 1));
    }
    Err(p)
}

// Whether a character stands for itself.
fn is_plain(c: u8) -> bool
    ensures { result ≡ plain c }
{
    if c == b'.' {
        return false;
    }
    if c == b'\\' {
        return false;
    }
    is_printable(c)
}

// How many octets fit into a label behind start octets of the name.
fn label_room(start: usize) -> usize
    ensures { result ≡ min 63 (253 - start) }
{
    // Tests, and not `saturating_sub` and `min`: with these the text of a host takes 11 instructions more.
    if start < 190 {
        return Name::MAX_LABEL;
    }
    if start < 253 {
        return 253 - start;
    }
    0
}

// Whether a further octet fits into a label of size octets behind start octets of the name.
fn has_room(start: usize, size: usize) -> bool
    requires { (start ≤ 255) × (size ≤ 63) }
    ensures { result ≡ fits_in start size }
{
    if size < Name::MAX_LABEL {
        return start + size < Name::MAX_LEN - 2;
    }
    false
}

// Reads a text, and writes the name that it spells to the front of octets. The octets behind the name, and all of them where the text is
// none, are of no use, and the promise leaves them free.
fn parse(text: &[u8], octets: &mut [u8; WIDE]) -> Result<usize, usize>
    requires { length octets.old ≡ 263 }
    ensures { Parses text.now octets.new result }
{
    if text.len() == 0 {
        return Err(0);
    }
    if text[0] == b'.' {
        if 1 < text.len() {
            return Err(1);
        }
        octets[0] = 0;
        return Ok(1);
    }
    let read = read_words(text, octets);
    let mut start = read.start;
    let mut size = read.size;
    let mut most = label_room(start);
    let mut p = read.p;
    while p < text.len() {
        let c = text[p];
        if c == b'.' {
            if size == 0 {
                return Err(p);
            }
            octets[start] = size as u8;
            start += size + 1;
            most = label_room(start);
            size = 0;
            p += 1;
        } else if is_plain(c) & (size < most) {
            size += 1;
            octets[start + size] = c;
            p += 1;
        } else {
            if !has_room(start, size) {
                return Err(p);
            }
            let at = start + 1 + size;
            size += 1;
            if c == b'\\' {
                let (o, next) = after_backslash(text, p + 1)?;
                octets[at] = o;
                p = next;
            } else {
                if !is_printable(c) {
                    return Err(p);
                }
                octets[at] = c;
                p += 1;
            }
        }
    }
    if 0 < size {
        return Err(text.len());
    }
    octets[start] = 0;
    Ok(start + 1)
}

// Reads the rest of a text from the place at on; past the end it is empty.
fn parse_from(text: &[u8], at: usize, octets: &mut [u8; WIDE]) -> Result<usize, usize>
    requires { length octets.old ≡ 263 }
    ensures { Parses (drop at text.now) octets.new result }
{
    if text.len() <= at {
        return Err(0);
    }
    parse(&text[at..], octets)
}

// Copies the first n octets to the front of space.
fn put_name(space: &mut [u8], octets: &[u8], n: usize)
    requires { n ≤ length octets.now }
    ensures { space.new ≡ space_after (answer (take n octets.now)) space.old }
{
    space::put_blocks(space, 0, &octets[..n]);
}

// Reads the text from the place at on, and writes the name that it spells to the front of space: 14, then 9.
pub fn read_text(text: &[u8], at: usize, space: &mut [u8]) -> TextRead
    ensures { Reads text.now at space.old result space.new }
{
    let mut octets = [0u8; WIDE];
    match parse_from(text, at, &mut octets) {
        Err(place) => TextRead {
            outcome: Err(TextRefusal::NotAText(place)),
            at,
        },
        Ok(n) => {
            if space.len() < n {
                return TextRead {
                    outcome: Err(TextRefusal::NoRoom),
                    at,
                };
            }
            put_name(space, &octets, n);
            TextRead {
                outcome: Ok(n),
                at: text.len(),
            }
        }
    }
}
