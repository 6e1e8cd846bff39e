// The functions for C, C++ and Rust, which crate qorshudan_c exports. Each hands back number + 2^8 * reason + 2^16 * value in one u64.
#![tactic(auto)]

pub mod bitmaps;
pub mod denials;
pub mod enclosers;
pub mod hashes;
pub mod lists;
pub mod neighbours;

ghost use Rattle.std.specs.Prelude.{◌≡◌, ◌+◌, ◌*◌, ◌^◌, ◌<◌, ◌≤◌, nat_abs};
ghost use Rattle.name.specs.Answer.{numbered, said, value, sized};
ghost use Rattle.name.specs.Check.{check_of};
ghost use Rattle.name.specs.Fold.{fold_of};
ghost use Rattle.name.specs.Starts.{label_places_of};
ghost use Rattle.order.specs.Compare.{compare_of};
ghost use Rattle.key.specs.Key.{write_key_of};
ghost use Rattle.key.specs.ReadKey.{read_key_of};
ghost use Rattle.text.specs.WriteText.{write_text_of};
ghost use Rattle.text.specs.ReadText.{read_text_of};
ghost use Rattle.text.specs.Reads.{said as text-said};
ghost use Rattle.qorshudan.specs.Packed.{packed, shifted, compared, Exports};

use figures::tell;
use name::Refusal;
use text::TextRefusal;

// number, reason and value in one number.
pub(crate) fn pack(number: u64, reason: u64, value: usize) -> u64
    requires { (number < 256) × (reason < 256) × (value < 2 ^ 32) }
    ensures { result ≡ number + 2 ^ 8 * reason + 2 ^ 16 * value }
{
    number + 256 * reason + 65536 * (value as u64)
}

fn pack_refusal(why: Refusal) -> u64
    requires { value (numbered why) < 2 ^ 32 }
    ensures { result ≡ packed (numbered why) }
{
    let told = tell(why);
    pack(told.number as u64, told.reason as u64, told.value)
}

pub(crate) fn pack_outcome(outcome: Result<usize, Refusal>) -> u64
    requires { value (said outcome) < 2 ^ 32 }
    ensures { result ≡ packed (said outcome) }
{
    match outcome {
        Ok(n) => pack(0, 0, n),
        Err(why) => pack_refusal(why),
    }
}

// Checks a name: its length, or 4.
pub fn qorshudan_check(name: &[u8]) -> u64
    ensures { result ≡ packed (sized (check_of name.now)) }
{
    let found = name::read(name);
    match found {
        Ok(_) => pack(0, 0, name.len()),
        Err(fault) => pack_refusal(Refusal::BadName(fault)),
    }
}

// Writes the folded name to the front of space: 4, then 9.
pub fn qorshudan_fold(name: &[u8], space: &mut [u8]) -> u64
    ensures { Exports (fold_of name.now) space.old result space.new }
{
    pack_outcome(name::fold(name, space))
}

// Writes the places of the length octets of a name's labels, from the left, to the front of places: 4, then 9.
pub fn qorshudan_label_places(name: &[u8], places: &mut [u8]) -> u64
    ensures { Exports (label_places_of name.now) places.old result places.new }
{
    pack_outcome(name::starts::label_places(name, places))
}

// 128 plus the number of a comparison.
fn shift(number: i16) -> usize
    requires { nat_abs number ≤ 127 }
    ensures { result ≡ shifted number }
{
    (number + 128) as usize
}

// Compares two names: 128 plus the signed number, or 4, or 11.
pub fn qorshudan_compare(first: &[u8], second: &[u8]) -> u64
    ensures { result ≡ packed (compared (compare_of first.now second.now)) }
{
    let found = order::compare(first, second);
    match found {
        Ok(number) => pack(0, 0, shift(number)),
        Err(why) => pack_refusal(why),
    }
}

// Writes the sorting key of a name to the front of space: 4, then 9.
pub fn qorshudan_write_key(name: &[u8], space: &mut [u8]) -> u64
    ensures { Exports (write_key_of name.now) space.old result space.new }
{
    pack_outcome(tokey::write_key(name, space))
}

// Writes the name that has this sorting key to the front of space: 10, then 9.
pub fn qorshudan_read_key(key: &[u8], space: &mut [u8]) -> u64
    ensures { Exports (read_key_of key.now) space.old result space.new }
{
    pack_outcome(fromkey::read_key(key, space))
}

fn pack_text(outcome: Result<usize, TextRefusal>) -> u64
    requires { value (text-said outcome) < 2 ^ 32 }
    ensures { result ≡ packed (text-said outcome) }
{
    match outcome {
        Ok(n) => pack(0, 0, n),
        Err(TextRefusal::NotAText(place)) => pack(14, 0, place),
        Err(TextRefusal::NoRoom) => 9,
    }
}

// Writes the text of a name to the front of space: 4, then 9.
pub fn qorshudan_write_text(name: &[u8], space: &mut [u8]) -> u64
    ensures { Exports (write_text_of name.now) space.old result space.new }
{
    pack_outcome(totext::write_text(name, space))
}

// Writes the name that a text spells to the front of space: 14, then 9.
pub fn qorshudan_read_text(text: &[u8], space: &mut [u8]) -> u64
    ensures { Exports (read_text_of text.now) space.old result space.new }
{
    let read = reader::read_at(text, 0, space);
    let outcome = read.outcome;
    pack_text(outcome)
}

// The version of the library, which is that of the file VERSION: major * 2^16 + minor * 2^8 + patch, as it is and not packed.
pub fn qorshudan_version() -> u64
    ensures { result ≡ 0 * 2 ^ 16 + 5 * 2 ^ 8 + 0 }
{
    1280
}
