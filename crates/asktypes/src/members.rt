// Whether a bitmap has a type.
ghost use Rattle.std.specs.Prelude.{◌≡◌};
ghost use Rattle.types.specs.Sets.{has};
ghost use Rattle.types.specs.Answers.{said_member, has_type_of};
ghost use Rattle.fromtypes.specs.Private.Checked.{types_of, IsRead};

use fromtypes::checking::check;
use types::NoBitmap;

// Whether a bitmap has a type: the window with its number, if any, has its bit.
fn present(bitmap: &[u8], t: u16) -> bool
    requires { IsRead bitmap.now }
    ensures { result ≡ has t (types_of bitmap.now) }
{
    let high = t / 256;
    let low = t % 256;
    let k = (low / 8) as usize;
    let mut p = 0;
    while p < bitmap.len() {
        let n = bitmap[p + 1] as usize;
        if bitmap[p] as u16 == high {
            if n <= k {
                return false;
            }
            return (bitmap[p + 2 + k] >> (7 - low % 8)) % 2 == 1;
        }
        p += 2 + n;
    }
    false
}

// Whether a type is in a bitmap: 15.
pub fn has_type(bitmap: &[u8], t: u16) -> Result<bool, NoBitmap>
    ensures { said_member result ≡ has_type_of bitmap.now t }
{
    check(bitmap)?;
    Ok(present(bitmap, t))
}
