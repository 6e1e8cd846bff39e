// The smallest and the largest type of a bitmap.
ghost use Rattle.std.specs.Prelude.{◌≡◌, ◌+◌, ◌≤◌, length};
ghost use Rattle.types.specs.Answers.{said_type, smallest, largest, smallest_type_of, largest_type_of};
ghost use Rattle.fromtypes.specs.Private.Checked.{types_of, IsRead, LastWindow};

use fromtypes::checking::check;
use types::NoBitmap;

// The smallest type of a bitmap that has one: the leading zeros of the first octet that is not 0 lead to it.
fn first_type(bitmap: &[u8]) -> u16
    requires { IsRead bitmap.now × (1 ≤ length bitmap.now) }
    ensures { smallest (types_of bitmap.now) ≡ 1 + result }
{
    let mut first = 256 * (bitmap[0] as usize);
    let mut i = 2;
    // An octet that is not 0 is there, and ends this: a `for` over the octets would test for their end in each turn too.
    while bitmap[i] == 0 {
        first += 8;
        i += 1;
    }
    (first + u8::leading_zeros(bitmap[i]) as usize) as u16
}

// The smallest type of a bitmap, or none: 15.
pub fn smallest_type(bitmap: &[u8]) -> Result<Option<u16>, NoBitmap>
    ensures { said_type result ≡ smallest_type_of bitmap.now }
{
    check(bitmap)?;
    if bitmap.len() == 0 {
        return Ok(None);
    }
    Ok(Some(first_type(bitmap)))
}

// The largest type of a bitmap whose last window begins at a place: the trailing zeros of the last octet lead to it.
fn last_type(bitmap: &[u8], last: usize) -> u16
    requires { LastWindow bitmap.now last }
    ensures { largest (types_of bitmap.now) ≡ 1 + result }
{
    let size = bitmap.len();
    let end = 256 * (bitmap[last] as usize) + 8 * (size - last - 2);
    (end - 1 - u8::trailing_zeros(bitmap[size - 1]) as usize) as u16
}

// The largest type of a bitmap, or none: 15.
pub fn largest_type(bitmap: &[u8]) -> Result<Option<u16>, NoBitmap>
    ensures { said_type result ≡ largest_type_of bitmap.now }
{
    let last = check(bitmap)?;
    if bitmap.len() == 0 {
        return Ok(None);
    }
    Ok(Some(last_type(bitmap, last)))
}
