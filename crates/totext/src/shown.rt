// Whether a text has no escapes, seen from its characters and the name's octets in blocks, the last of which overlaps the one before it.
ghost use Rattle.std.specs.Prelude.{◌≡◌, ◌&&◌, ◌+◌, ◌≤◌, ◌<◌, length};
ghost use Rattle.totext.specs.Private.Shown.{shown, undotted, Each};

// Whether a character is a dot or one of those that stand for themselves, and the octet is no dot; not all of these characters, but two
// ranges, which are tested fast.
fn is_shown(c: u8, o: u8) -> bool
    ensures { result ≡ shown c && undotted o }
{
    (((b'*' <= c) & (c <= b':')) | ((b']' <= c) & (c <= b'~'))) & (o != b'.')
}

// Whether w characters of s from index p on are shown, with the octets of t one further on. Each call names the number w: the compiler puts
// the block in the call's place, and makes a few vector operations of it.
fn shown_block(s: &[u8], t: &[u8], p: usize, w: usize) -> bool
    requires { (p + w ≤ length s.now) × (p + w < length t.now) }
    ensures { Each s.now t.now p w result }
{
    let mut all = true;
    for k in 0..w {
        all = all & is_shown(s[p + k], t[p + k + 1]);
    }
    all
}

// Whether the first n characters are, 16 or more.
fn long_shown(s: &[u8], t: &[u8], n: usize) -> bool
    requires { (16 ≤ n) × (n ≤ length s.now) × (n < length t.now) }
    ensures { Each s.now t.now 0 n result }
{
    let mut all = true;
    for i in (0..n).step_by(16) {
        let j = i.min(n - 16);
        all = all & shown_block(s, t, j, 16);
    }
    all
}

// Whether the first n characters are.
pub(crate) fn all_shown(s: &[u8], t: &[u8], n: usize) -> bool
    requires { (n ≤ length s.now) × (n < length t.now) }
    ensures { Each s.now t.now 0 n result }
{
    if 32 < n {
        return long_shown(s, t, n);
    }
    if 16 <= n {
        return shown_block(s, t, 0, 16) & shown_block(s, t, n - 16, 16);
    }
    if 8 <= n {
        return shown_block(s, t, 0, 8) & shown_block(s, t, n - 8, 8);
    }
    if 4 <= n {
        return shown_block(s, t, 0, 4) & shown_block(s, t, n - 4, 4);
    }
    shown_block(s, t, 0, n)
}
