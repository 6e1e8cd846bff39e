// Whether octets are a bitmap.
ghost use Rattle.fromtypes.specs.Private.Checked.{Checks};

use types::NoBitmap;

// Whether octets are a bitmap. An empty one has no window, and 0 is told for its place.
pub fn check(bitmap: &[u8]) -> Result<usize, NoBitmap>
    ensures { Checks bitmap.now result }
{
    let mut least: usize = 0;
    let mut last = 0;
    let mut p = 0;
    while p < bitmap.len() {
        let w = bitmap[p] as usize;
        if w < least {
            return Err(NoBitmap(p));
        }
        let q = p + 1;
        if bitmap.len() <= q {
            return Err(NoBitmap(q));
        }
        let n = bitmap[q] as usize;
        if n == 0 {
            return Err(NoBitmap(q));
        }
        if n > 32 {
            return Err(NoBitmap(q));
        }
        let e = q + n;
        if bitmap.len() <= e {
            return Err(NoBitmap(bitmap.len()));
        }
        if bitmap[e] == 0 {
            return Err(NoBitmap(e));
        }
        least = w + 1;
        last = p;
        p = e + 1;
    }
    Ok(last)
}
