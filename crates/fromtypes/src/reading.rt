// The types of a bitmap as a list.
ghost use Rattle.std.specs.Prelude.{◌≡◌, ◌+◌, ◌*◌, ◌≤◌, length, take, drop};
ghost use Rattle.space.specs.Octets.{overlay};
ghost use Rattle.space.specs.Private.Written.{Written};
ghost use Rattle.name.specs.Answer.{Fills};
ghost use Rattle.types.specs.Window.{bit_types, octet_types};
ghost use Rattle.types.specs.Answers.{said, read_types_of};
ghost use Rattle.fromtypes.specs.Private.Checked.{types_of, IsRead};

use crate::checking::check;
use crate::counting::count;
use types::TypesRefusal;

// Writes the types of an octet's bits, of which the highest is the type first, from an index on, and tells the index after them. The
// leading zeros lead to the highest bit that is left.
fn put_bits(types: &mut [u16], at: usize, octet: u8, first: usize) -> usize
    requires { (at + length (bit_types first 8 octet) ≤ length types.old) × (first + 8 ≤ 65536) }
    ensures { Written types.old at at (bit_types first 8 octet) result result types.new }
{
    let mut left = octet;
    let mut k = at;
    while left != 0 {
        let zeros = u8::leading_zeros(left);
        types[k] = (first + zeros as usize) as u16;
        left -= 128u8 >> zeros;
        k += 1;
    }
    k
}

// Writes the types of n octets of a bitmap, from the type first on, and tells the index after them.
fn put_octets(
    types: &mut [u16],
    at: usize,
    bitmap: &[u8],
    from: usize,
    n: usize,
    first: usize,
) -> usize
    requires n_in_bounds { (from + n ≤ length bitmap.now) × (first + 8 * n ≤ 65536) }
    requires bitmap_in_bounds { at + length (octet_types first (take n (drop from bitmap.now))) ≤ length types.old }
    ensures { Written types.old at at (octet_types first (take n (drop from bitmap.now))) result result types.new }
{
    let mut k = at;
    for i in 0..n {
        k = put_bits(types, k, bitmap[from + i], first + 8 * i);
    }
    k
}

// Writes the types of a bitmap to the front of a list that has room for them.
fn put_types(types: &mut [u16], bitmap: &[u8])
    requires { IsRead bitmap.now × (length (types_of bitmap.now) ≤ length types.old) }
    ensures { types.new ≡ overlay (types_of bitmap.now) types.old }
{
    let mut k = 0;
    let mut p = 0;
    while p < bitmap.len() {
        let n = bitmap[p + 1] as usize;
        k = put_octets(types, k, bitmap, p + 2, n, 256 * (bitmap[p] as usize));
        p += 2 + n;
    }
}

// Writes the types of a bitmap to the front of types, in rising order: 15, then 9.
pub fn read_types(bitmap: &[u8], types: &mut [u16]) -> Result<usize, TypesRefusal>
    ensures { Fills (read_types_of bitmap.now) types.old (said result) types.new }
{
    check(bitmap).map_err(|w| TypesRefusal::NoSet(w.0))?;
    let n = count(bitmap);
    if types.len() < n {
        return Err(TypesRefusal::NoRoom);
    }
    put_types(types, bitmap);
    Ok(n)
}
