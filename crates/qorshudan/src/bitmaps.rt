// The functions for C on type bitmaps (RFC 4034 section 4.1.2). Types are u16, in the machine's order.
ghost use Rattle.std.specs.Prelude.{◌≡◌, ◌^◌, ◌<◌};
ghost use Rattle.name.specs.Answer.{value};
ghost use Rattle.types.specs.Answers.{said, said_member, said_count, said_type};
ghost use Rattle.types.specs.Answers.{read_types_of, write_types_of, has_type_of, count_types_of, smallest_type_of, largest_type_of};
ghost use Rattle.qorshudan.specs.Packed.{packed, Exports};

use crate::pack;
use types::{NoBitmap, TypesRefusal};

fn pack_types(outcome: Result<usize, TypesRefusal>) -> u64
    requires { value (said outcome) < 2 ^ 32 }
    ensures { result ≡ packed (said outcome) }
{
    match outcome {
        Ok(n) => pack(0, 0, n),
        Err(TypesRefusal::NoSet(place)) => pack(15, 0, place),
        Err(TypesRefusal::NoRoom) => 9,
    }
}

// Writes the types of a bitmap to the front of types, in rising order: 15, then 9.
pub fn qorshudan_read_types(bitmap: &[u8], types: &mut [u16]) -> u64
    ensures { Exports (read_types_of bitmap.now) types.old result types.new }
{
    pack_types(fromtypes::reading::read_types(bitmap, types))
}

// Writes the bitmap of the types of a list to the front of space: 15, then 9.
pub fn qorshudan_write_types(types: &[u16], space: &mut [u8]) -> u64
    ensures { Exports (write_types_of types.now) space.old result space.new }
{
    pack_types(totypes::write_types(types, space))
}

fn pack_member(found: Result<bool, NoBitmap>) -> u64
    requires { value (said_member found) < 2 ^ 32 }
    ensures { result ≡ packed (said_member found) }
{
    match found {
        Ok(true) => pack(0, 0, 1),
        Ok(false) => 0,
        Err(NoBitmap(place)) => pack(15, 0, place),
    }
}

// Tells whether a type is in a bitmap: 1 or 0, or 15.
pub fn qorshudan_has_type(bitmap: &[u8], t: u16) -> u64
    ensures { result ≡ packed (has_type_of bitmap.now t) }
{
    pack_member(asktypes::members::has_type(bitmap, t))
}

fn pack_count(found: Result<usize, NoBitmap>) -> u64
    requires { value (said_count found) < 2 ^ 32 }
    ensures { result ≡ packed (said_count found) }
{
    match found {
        Ok(n) => pack(0, 0, n),
        Err(NoBitmap(place)) => pack(15, 0, place),
    }
}

// Tells how many types a bitmap has, or 15.
pub fn qorshudan_count_types(bitmap: &[u8]) -> u64
    ensures { result ≡ packed (count_types_of bitmap.now) }
{
    pack_count(fromtypes::counting::count_types(bitmap))
}

// 1 plus a type, and 0 for none.
fn pack_type(found: Result<Option<u16>, NoBitmap>) -> u64
    requires { value (said_type found) < 2 ^ 32 }
    ensures { result ≡ packed (said_type found) }
{
    match found {
        Ok(Some(t)) => pack(0, 0, 1 + t as usize),
        Ok(None) => 0,
        Err(NoBitmap(place)) => pack(15, 0, place),
    }
}

// Tells 1 plus the smallest type of a bitmap, 0 where it has none, or 15.
pub fn qorshudan_smallest_type(bitmap: &[u8]) -> u64
    ensures { result ≡ packed (smallest_type_of bitmap.now) }
{
    pack_type(asktypes::extremes::smallest_type(bitmap))
}

// Tells 1 plus the largest type of a bitmap, 0 where it has none, or 15.
pub fn qorshudan_largest_type(bitmap: &[u8]) -> u64
    ensures { result ≡ packed (largest_type_of bitmap.now) }
{
    pack_type(asktypes::extremes::largest_type(bitmap))
}
