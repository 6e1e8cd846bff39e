// The library as C, C++ and Rust link it: each function of crate qorshudan under its own name, with its promise.
#![tactic(auto)]

pub mod bitmaps;
pub mod denials;
pub mod enclosers;
pub mod hashes;
pub mod lists;
pub mod neighbours;

ghost use Rattle.std.specs.Prelude.{◌≡◌, ◌+◌, ◌*◌, ◌^◌};
ghost use Rattle.name.specs.Answer.{sized};
ghost use Rattle.name.specs.Check.{check_of};
ghost use Rattle.name.specs.Fold.{fold_of};
ghost use Rattle.name.specs.Starts.{label_places_of};
ghost use Rattle.order.specs.Compare.{compare_of};
ghost use Rattle.key.specs.Key.{write_key_of};
ghost use Rattle.key.specs.ReadKey.{read_key_of};
ghost use Rattle.text.specs.WriteText.{write_text_of};
ghost use Rattle.text.specs.ReadText.{read_text_of};
ghost use Rattle.qorshudan.specs.Packed.{packed, compared, Exports};

// Checks a name: its length, or 4.
#[unsafe(no_mangle)]
pub extern "C" fn qorshudan_check(name: &[u8]) -> u64
    ensures { result ≡ packed (sized (check_of name.now)) }
{
    qorshudan::qorshudan_check(name)
}

// Writes the folded name to the front of space: 4, then 9.
#[unsafe(no_mangle)]
pub extern "C" fn qorshudan_fold(name: &[u8], space: &mut [u8]) -> u64
    ensures { Exports (fold_of name.now) space.old result space.new }
{
    qorshudan::qorshudan_fold(name, space)
}

// Writes the places of the length octets of a name's labels, from the left, to the front of places: 4, then 9.
#[unsafe(no_mangle)]
pub extern "C" fn qorshudan_label_places(name: &[u8], places: &mut [u8]) -> u64
    ensures { Exports (label_places_of name.now) places.old result places.new }
{
    qorshudan::qorshudan_label_places(name, places)
}

// Compares two names: 128 plus the signed number, or 4, or 11.
#[unsafe(no_mangle)]
pub extern "C" fn qorshudan_compare(first: &[u8], second: &[u8]) -> u64
    ensures { result ≡ packed (compared (compare_of first.now second.now)) }
{
    qorshudan::qorshudan_compare(first, second)
}

// Writes the sorting key of a name to the front of space: 4, then 9.
#[unsafe(no_mangle)]
pub extern "C" fn qorshudan_write_key(name: &[u8], space: &mut [u8]) -> u64
    ensures { Exports (write_key_of name.now) space.old result space.new }
{
    qorshudan::qorshudan_write_key(name, space)
}

// Writes the name that has this sorting key to the front of space: 10, then 9.
#[unsafe(no_mangle)]
pub extern "C" fn qorshudan_read_key(key: &[u8], space: &mut [u8]) -> u64
    ensures { Exports (read_key_of key.now) space.old result space.new }
{
    qorshudan::qorshudan_read_key(key, space)
}

// Writes the text of a name to the front of space: 4, then 9.
#[unsafe(no_mangle)]
pub extern "C" fn qorshudan_write_text(name: &[u8], space: &mut [u8]) -> u64
    ensures { Exports (write_text_of name.now) space.old result space.new }
{
    qorshudan::qorshudan_write_text(name, space)
}

// Writes the name that a text spells to the front of space: 14, then 9.
#[unsafe(no_mangle)]
pub extern "C" fn qorshudan_read_text(text: &[u8], space: &mut [u8]) -> u64
    ensures { Exports (read_text_of text.now) space.old result space.new }
{
    qorshudan::qorshudan_read_text(text, space)
}

// The version of the library, which is that of the file VERSION: major * 2^16 + minor * 2^8 + patch, as it is and not packed.
#[unsafe(no_mangle)]
pub extern "C" fn qorshudan_version() -> u64
    ensures { result ≡ 0 * 2 ^ 16 + 5 * 2 ^ 8 + 0 }
{
    qorshudan::qorshudan_version()
}
