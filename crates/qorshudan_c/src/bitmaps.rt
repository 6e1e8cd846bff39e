// The exports on type bitmaps (RFC 4034 section 4.1.2). Types are u16, in the machine's order.
ghost use Rattle.std.specs.Prelude.{◌≡◌};
ghost use Rattle.types.specs.Answers.{read_types_of, write_types_of, has_type_of, count_types_of, smallest_type_of, largest_type_of};
ghost use Rattle.qorshudan.specs.Packed.{packed, Exports};

// Writes the types of a bitmap to the front of types, in rising order: 15, then 9.
#[unsafe(no_mangle)]
pub extern "C" fn qorshudan_read_types(bitmap: &[u8], types: &mut [u16]) -> u64
    ensures { Exports (read_types_of bitmap.now) types.old result types.new }
{
    qorshudan::bitmaps::qorshudan_read_types(bitmap, types)
}

// Writes the bitmap of the types of a list to the front of space: 15, then 9.
#[unsafe(no_mangle)]
pub extern "C" fn qorshudan_write_types(types: &[u16], space: &mut [u8]) -> u64
    ensures { Exports (write_types_of types.now) space.old result space.new }
{
    qorshudan::bitmaps::qorshudan_write_types(types, space)
}

// Tells whether a type is in a bitmap: 1 or 0, or 15.
#[unsafe(no_mangle)]
pub extern "C" fn qorshudan_has_type(bitmap: &[u8], t: u16) -> u64
    ensures { result ≡ packed (has_type_of bitmap.now t) }
{
    qorshudan::bitmaps::qorshudan_has_type(bitmap, t)
}

// Tells how many types a bitmap has, or 15.
#[unsafe(no_mangle)]
pub extern "C" fn qorshudan_count_types(bitmap: &[u8]) -> u64
    ensures { result ≡ packed (count_types_of bitmap.now) }
{
    qorshudan::bitmaps::qorshudan_count_types(bitmap)
}

// Tells 1 plus the smallest type of a bitmap, 0 where it has none, or 15.
#[unsafe(no_mangle)]
pub extern "C" fn qorshudan_smallest_type(bitmap: &[u8]) -> u64
    ensures { result ≡ packed (smallest_type_of bitmap.now) }
{
    qorshudan::bitmaps::qorshudan_smallest_type(bitmap)
}

// Tells 1 plus the largest type of a bitmap, 0 where it has none, or 15.
#[unsafe(no_mangle)]
pub extern "C" fn qorshudan_largest_type(bitmap: &[u8]) -> u64
    ensures { result ≡ packed (largest_type_of bitmap.now) }
{
    qorshudan::bitmaps::qorshudan_largest_type(bitmap)
}
