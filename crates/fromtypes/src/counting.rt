// How many types a bitmap has.
ghost use Rattle.std.specs.Prelude.{◌≡◌, ◌+◌, ◌≤◌, length, take, drop};
ghost use Rattle.types.specs.Answers.{said_count, count_types_of};
ghost use Rattle.fromtypes.specs.Private.Checked.{types_of, IsRead};
ghost use Rattle.fromtypes.specs.Private.Counted.{ones_of};

use crate::checking::check;
use types::NoBitmap;

// How many ones n octets have from an index on.
fn count_in(bitmap: &[u8], from: usize, n: usize) -> usize
    requires { (n ≤ 32) × (from + n ≤ length bitmap.now) }
    ensures { result ≡ ones_of (take n (drop from bitmap.now)) }
{
    let mut sum = 0;
    for i in 0..n {
        sum += u8::count_ones(bitmap[from + i]) as usize;
    }
    sum
}

// How many types a bitmap has: the ones of its windows' octets.
pub(crate) fn count(bitmap: &[u8]) -> usize
    requires { IsRead bitmap.now }
    ensures { result ≡ length (types_of bitmap.now) }
{
    let mut sum = 0;
    let mut p = 0;
    while p < bitmap.len() {
        let n = bitmap[p + 1] as usize;
        sum += count_in(bitmap, p + 2, n);
        p += 2 + n;
    }
    sum
}

// How many types a bitmap has: 15.
pub fn count_types(bitmap: &[u8]) -> Result<usize, NoBitmap>
    ensures { said_count result ≡ count_types_of bitmap.now }
{
    check(bitmap)?;
    Ok(count(bitmap))
}
