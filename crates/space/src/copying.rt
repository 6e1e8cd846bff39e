// Octets copied in blocks, the last of which overlaps the one before it, so that no single octets are left over.
ghost use Rattle.std.specs.Prelude.{◌≡◌, ◌+◌, ◌≤◌, ◌<◌, length, take, drop};
ghost use Rattle.space.specs.Private.Put.{put};

// Copies w octets of s from index i on to d, i octets behind index at. As in a block that is folded, each call names the number w, and the
// octets go through an array, where they stand from its end.
fn copy_block(d: &mut [u8], at: usize, s: &[u8], i: usize, w: usize)
    requires w_bound { w ≤ 16 }
    requires w_in_bounds { (at + (i + w) ≤ length d.old) × (i + w ≤ length s.now) }
    ensures { d.new ≡ put d.old (at + i) (take w (drop i s.now)) }
{
    let mut t = [0u8; 16];
    for k in 0..w {
        t[15 - k] = s[i + k];
    }
    let to = at + i;
    for k in 0..w {
        d[to + k] = t[15 - k];
    }
}

// Copies 16 octets or more, two blocks a turn and two at the end. These overlap at will: to ask whether one is enough costs more.
fn copy_long(d: &mut [u8], at: usize, s: &[u8])
    requires in_bounds { 16 ≤ length s.now }
    requires s_in_bounds { at + length s.now ≤ length d.old }
    ensures { d.new ≡ put d.old at s.now }
{
    let last = s.len() - 16;
    let mut i = 0;
    // A `while`, since the block behind the loop begins where its turns end.
    while i + 16 < last {
        copy_block(d, at, s, i, 16);
        copy_block(d, at, s, i + 16, 16);
        i += 32;
    }
    copy_block(d, at, s, i.min(last), 16);
    copy_block(d, at, s, last, 16);
}

// Copies up to 3 octets: the first, the middle and the last.
fn copy_few(d: &mut [u8], at: usize, s: &[u8])
    requires s_len_bound { length s.now < 4 }
    requires s_in_bounds { at + length s.now ≤ length d.old }
    ensures { d.new ≡ put d.old at s.now }
{
    let n = s.len();
    if 0 < n {
        copy_block(d, at, s, 0, 1);
        copy_block(d, at, s, n / 2, 1);
        copy_block(d, at, s, n - 1, 1);
    }
}

// Copies all octets of s.
pub(crate) fn copy(d: &mut [u8], at: usize, s: &[u8])
    requires { at + length s.now ≤ length d.old }
    ensures { d.new ≡ put d.old at s.now }
{
    let n = s.len();
    if 16 <= n {
        copy_long(d, at, s);
        return;
    }
    if 8 <= n {
        copy_block(d, at, s, 0, 8);
        copy_block(d, at, s, n - 8, 8);
        return;
    }
    if 4 <= n {
        copy_block(d, at, s, 0, 4);
        copy_block(d, at, s, n - 4, 4);
        return;
    }
    copy_few(d, at, s);
}
