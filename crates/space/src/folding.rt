// Octets copied and folded in blocks, the last of which overlaps the one before it, so that no single octets are left over.
ghost use Rattle.std.specs.Prelude.{◌≡◌, ◌+◌, ◌≤◌, ◌<◌, length};
ghost use Rattle.space.specs.Private.Put.{put_folded};

use crate::lower;

// Copies w octets of s from index from on, folded, to d from index at on. Each call names the number w: the compiler puts the block in the
// call's place, with all its turns in a row, and makes one vector operation of them. They go through an array, so that it need not ask
// whether the slices overlap, and stand there from its end, since a plain copy out of it would become a call before w is known.
pub(crate) fn fold_block(d: &mut [u8], at: usize, s: &[u8], from: usize, w: usize)
    requires w_bound { w ≤ 16 }
    requires w_in_bounds { (at + w ≤ length d.old) × (from + w ≤ length s.now) }
    ensures { d.new ≡ put_folded d.old at s.now from w }
{
    let mut t = [0u8; 16];
    for k in 0..w {
        t[15 - k] = lower(s[from + k]);
    }
    for k in 0..w {
        d[at + k] = t[15 - k];
    }
}

// Copies n octets, 16 or more, two blocks a turn and two at the end. These overlap at will: to ask whether one is enough costs more.
fn fold_long(d: &mut [u8], at: usize, s: &[u8], from: usize, n: usize)
    requires le_n { 16 ≤ n }
    requires n_in_bounds { (at + n ≤ length d.old) × (from + n ≤ length s.now) }
    ensures { d.new ≡ put_folded d.old at s.now from n }
{
    let last = n - 16;
    let mut i = 0;
    // A `while`, since the block behind the loop begins where its turns end.
    while i + 16 < last {
        fold_block(d, at + i, s, from + i, 16);
        let j = i + 16;
        fold_block(d, at + j, s, from + j, 16);
        i += 32;
    }
    let k = i.min(last);
    fold_block(d, at + k, s, from + k, 16);
    fold_block(d, at + last, s, from + last, 16);
}

// Copies up to 3 octets: the first, the middle and the last.
fn fold_few(d: &mut [u8], at: usize, s: &[u8], from: usize, n: usize)
    requires n_bound { n < 4 }
    requires n_in_bounds { (at + n ≤ length d.old) × (from + n ≤ length s.now) }
    ensures { d.new ≡ put_folded d.old at s.now from n }
{
    if 0 < n {
        let h = n / 2;
        let l = n - 1;
        d[at] = lower(s[from]);
        d[at + h] = lower(s[from + h]);
        d[at + l] = lower(s[from + l]);
    }
}

// Copies n octets.
pub(crate) fn copy_folded(d: &mut [u8], at: usize, s: &[u8], from: usize, n: usize)
    requires { (at + n ≤ length d.old) × (from + n ≤ length s.now) }
    ensures { d.new ≡ put_folded d.old at s.now from n }
{
    if 16 <= n {
        fold_long(d, at, s, from, n);
        return;
    }
    if 8 <= n {
        let j = n - 8;
        fold_block(d, at, s, from, 8);
        fold_block(d, at + j, s, from + j, 8);
        return;
    }
    if 4 <= n {
        let j = n - 4;
        fold_block(d, at, s, from, 4);
        fold_block(d, at + j, s, from + j, 4);
        return;
    }
    fold_few(d, at, s, from, n);
}
