// The owner label of a hash, written and read.
#![tactic(auto)]

mod groups;

ghost use Rattle.std.specs.Prelude.{◌≡◌, ◌≤◌, map, length, take};
ghost use Rattle.space.specs.Fold.{lower_of};
ghost use Rattle.space.specs.Octets.{overlay};
ghost use Rattle.name.specs.Answer.{answer, Fills};
ghost use Rattle.hash.specs.Private.Below.{Below};
ghost use Rattle.hash.specs.Digits.{are_digits};
ghost use Rattle.hash.specs.Label.{character, digit_of, label_of, label_digits};
ghost use Rattle.hash.specs.Answers.{said, write_label_of, read_label_of};

use crate::groups::regroup;
use hash::{HashRefusal, array};

// The characters of the 32 digits: 0 to 9, then a to v.
const CHARACTERS: [u8; 32] = *b"0123456789abcdefghijklmnopqrstuv";

// The digit that a character of either letter case stands for, and 32 where it stands for none.
fn digit_of(octet: u8) -> u8
    ensures { result ≡ digit_of (lower_of octet) }
{
    let c = space::lower(octet);
    if c < b'0' {
        return 32;
    }
    if c <= b'9' {
        return c - 48;
    }
    if c < b'a' {
        return 32;
    }
    if c <= b'v' {
        return c - 87;
    }
    32
}

// Turns the 32 digits at the front of a space into their characters.
fn spell(d: &mut [u8])
    requires { (32 ≤ length d.old) × Below 32 (take 32 d.old) }
    ensures { d.new ≡ overlay (map character (take 32 d.old)) d.old }
{
    let table = CHARACTERS;
    for i in 0..32 {
        d[i] = table[d[i] as usize];
    }
}

// Writes the label of a hash to the front of space: 9.
fn spell_hash(hash: [u8; 20], space: &mut [u8]) -> Result<usize, HashRefusal>
    ensures { Fills (answer (label_of hash)) space.old (said result) space.new }
{
    if space.len() < 32 {
        return Err(HashRefusal::NoRoom);
    }
    regroup(&hash, 256, 5, space, 32, 8);
    spell(space);
    Ok(32)
}

// Writes the owner label of a hash to the front of space: 17, then 9.
pub fn write_label(hash: &[u8], space: &mut [u8]) -> Result<usize, HashRefusal>
    ensures { Fills (write_label_of hash.now) space.old (said result) space.new }
{
    if hash.len() != 20 {
        return Err(HashRefusal::NoHash);
    }
    spell_hash(array(hash), space)
}

// Puts the digits of a label's characters into an array, 32 for a character that stands for none.
fn unspell(label: &[u8], digits: &mut [u8; 32])
    requires { (length label.now ≡ 32) × (length digits.old ≡ 32) }
    ensures { digits.new ≡ label_digits label.now }
{
    for i in 0..32 {
        digits[i] = digit_of(label[i]);
    }
}

// Whether each of them is a digit. It goes to the end, so that the compiler looks at many at once.
fn are_digits(digits: [u8; 32]) -> bool
    ensures { result ≡ are_digits 32 digits }
{
    let mut each = true;
    for digit in digits {
        if 32 <= digit {
            each = false;
        }
    }
    each
}

// Writes the hash that has this label, in either letter case, to the front of space: 17, then 9.
pub fn read_label(label: &[u8], space: &mut [u8]) -> Result<usize, HashRefusal>
    ensures { Fills (read_label_of label.now) space.old (said result) space.new }
{
    if label.len() != 32 {
        return Err(HashRefusal::NoHash);
    }
    let mut digits = [0u8; 32];
    unspell(label, &mut digits);
    if are_digits(digits) {
        if space.len() < 20 {
            return Err(HashRefusal::NoRoom);
        }
        regroup(&digits, 32, 8, space, 256, 5);
        return Ok(20);
    }
    Err(HashRefusal::NoHash)
}
