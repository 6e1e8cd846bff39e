// The ends of two names and the fronts of two labels: how many octets there are the same, folded.
#![tactic(auto)]

ghost use Rattle.std.specs.Prelude.{◌≡◌, true, false, ◌+◌, ◌-◌, ◌%◌, ◌≤◌, length, take, drop};
ghost use Rattle.space.specs.Fold.{folded};

// Whether the w octets of s from p on and of t from q on are the same, folded. It looks at all of them, which is faster than to stop
// early. Each call names the number w, and not all name the same: so the compiler puts the block, a vector operation, in the call's place.
fn same_block(s: &[u8], p: usize, t: &[u8], q: usize, w: usize) -> bool
    requires { (p + w ≤ length s.now) × (q + w ≤ length t.now) }
    ensures { (result ≡ true → take w (drop p (folded s.now)) ≡ take w (drop q (folded t.now)))
        × (result ≡ false → take w (drop p (folded s.now)) ≡ take w (drop q (folded t.now)) → ⊥) }
{
    let mut same = true;
    for k in 0..w {
        if space::lower(s[p + k]) != space::lower(t[q + k]) {
            same = false;
        }
    }
    same
}

// How many octets at the end of s and of t are the same, folded, in whole blocks of w from the right: the block before them differs, or
// one of the two has none. Each call names the number w here too.
pub fn same_tail(s: &[u8], t: &[u8], w: usize) -> usize
    requires { 1 ≤ w }
    ensures { (result ≤ length s.now) × (result ≤ length t.now)
        × (drop (length s.now - result) (folded s.now) ≡ drop (length t.now - result) (folded t.now))
        × (result % w ≡ 0)
        × (w ≤ length s.now - result → w ≤ length t.now - result
        → take w (drop (length s.now - result - w) (folded s.now))
        ≡ take w (drop (length t.now - result - w) (folded t.now)) → ⊥) }
{
    let blocks = s.len().min(t.len()) / w;
    for k in 0..blocks {
        let c = k * w;
        if !same_block(s, s.len() - c - w, t, t.len() - c - w, w) {
            return c;
        }
    }
    blocks * w
}

// How many octets at the front of s and of t are the same, folded, in whole blocks of 8: the block behind them differs, or one of the two
// has none.
pub fn same_front(s: &[u8], t: &[u8]) -> usize
    ensures { (result ≤ length s.now) × (result ≤ length t.now)
        × (take result (folded s.now) ≡ take result (folded t.now))
        × (result % 8 ≡ 0)
        × (8 ≤ length s.now - result → 8 ≤ length t.now - result
        → take 8 (drop result (folded s.now)) ≡ take 8 (drop result (folded t.now)) → ⊥) }
{
    let blocks = s.len().min(t.len()) / 8;
    for k in 0..blocks {
        let c = k * 8;
        if !same_block(s, c, t, c, 8) {
            return c;
        }
    }
    blocks * 8
}
