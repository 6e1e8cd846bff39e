// Octets compared, folded, in blocks that overlap as those of a copy do. All octets are looked at, since a loop
// that may stop early does not become vector code.
ghost use Rattle.std.specs.Prelude.{◌≡◌, ◌+◌, ◌≤◌, eqb, length};
ghost use Rattle.space.specs.Fold.{lower_of};
ghost use Rattle.space.specs.Private.SameParts.{same_parts, case_bit};

// The bit that tells the two cases of a letter apart, and 0 for any other octet.
fn case_bit(o: u8) -> u8
    ensures { result ≡ case_bit o }
{
    let l = o | 32;
    if b'a' <= l {
        if l <= b'z' {
            return 32;
        }
    }
    0
}

// Whether two octets are the same, folded. One of them is looked at for a letter, and the bit is set in both.
fn same_octet(a: u8, b: u8) -> bool
    ensures { result ≡ eqb (lower_of a) (lower_of b) }
{
    let bit = case_bit(a);
    (a | bit) == (b | bit)
}

// Whether w octets of s from index p on and of t from index q on are the same, folded. Each call names the number w, as in `fold_block`.
fn same_block(s: &[u8], p: usize, t: &[u8], q: usize, w: usize) -> bool
    requires { (p + w ≤ length s.now) × (q + w ≤ length t.now) }
    ensures { result ≡ same_parts s.now p t.now q w }
{
    let mut same = true;
    for k in 0..w {
        same = same & same_octet(s[p + k], t[q + k]);
    }
    same
}

// The same for all octets of t, 16 or more.
fn same_long(s: &[u8], p: usize, t: &[u8]) -> bool
    requires in_bounds { 16 ≤ length t.now }
    requires t_in_bounds { p + length t.now ≤ length s.now }
    ensures { result ≡ same_parts s.now p t.now 0 (length t.now) }
{
    let n = t.len();
    let mut same = true;
    for i in (0..n).step_by(16) {
        let j = i.min(n - 16);
        same = same & same_block(s, p + j, t, j, 16);
    }
    same
}

// The same for any number of octets. Few are compared one by one.
pub(crate) fn same_octets(s: &[u8], p: usize, t: &[u8]) -> bool
    requires { p + length t.now ≤ length s.now }
    ensures { result ≡ same_parts s.now p t.now 0 (length t.now) }
{
    let n = t.len();
    if 32 < n {
        return same_long(s, p, t);
    }
    if 16 <= n {
        let j = n - 16;
        return same_block(s, p, t, 0, 16) & same_block(s, p + j, t, j, 16);
    }
    if 8 <= n {
        let j = n - 8;
        return same_block(s, p, t, 0, 8) & same_block(s, p + j, t, j, 8);
    }
    if 4 <= n {
        let j = n - 4;
        return same_block(s, p, t, 0, 4) & same_block(s, p + j, t, j, 4);
    }
    same_block(s, p, t, 0, n)
}
