// Comparing two names in the canonical order.
#![tactic(auto)]

ghost use Rattle.std.specs.Prelude.{◌≡◌, ◌+◌, ◌-◌, ◌≤◌, length, take, drop, get_or};
ghost use Rattle.space.specs.Fold.{folded};
ghost use Rattle.name.specs.Starts.{label_at};
ghost use Rattle.name.specs.Private.Marks.{Starts};
ghost use Rattle.order.specs.Order.{folded_labels};
ghost use Rattle.order.specs.Compare.{order_of, signed, number_of, compare_of, said};

use name::starts::mark;
use name::{Name, Refusal};
use std::cmp::Ordering;

// The order of two labels, folded, of which the first octets, so many, are the same.
fn order_from(a: &[u8], b: &[u8], from: usize) -> Ordering
    requires { (from ≤ length a.now) × (from ≤ length b.now) × (take from (folded a.now) ≡ take from (folded b.now)) }
    ensures { result ≡ order_of (folded a.now) (folded b.now) }
{
    for k in from..a.len() {
        if b.len() <= k {
            return Ordering::Greater;
        }
        let x = space::lower(a[k]);
        let y = space::lower(b[k]);
        if x < y {
            return Ordering::Less;
        }
        if y < x {
            return Ordering::Greater;
        }
    }
    if a.len() < b.len() {
        return Ordering::Less;
    }
    Ordering::Equal
}

// The order of two labels, folded, octet by octet.
pub fn label_order(a: &[u8], b: &[u8]) -> Ordering
    ensures { result ≡ order_of (folded a.now) (folded b.now) }
{
    order_from(a, b, 0)
}

// The order of two labels, folded, in blocks of 8 as long as these are the same.
fn long_order(a: &[u8], b: &[u8]) -> Ordering
    ensures { result ≡ order_of (folded a.now) (folded b.now) }
{
    order_from(a, b, tail::same_front(a, b))
}

// The order of the labels, folded, that begin at p and at q. Labels without a block pay for none.
fn order_at(s: &[u8], p: usize, t: &[u8], q: usize) -> Ordering
    requires { (p + 1 + get_or s.now p 0 ≤ length s.now) × (q + 1 + get_or t.now q 0 ≤ length t.now) }
    ensures { result ≡ order_of (folded (label_at s.now p)) (folded (label_at t.now q)) }
{
    let a = p + 1;
    let b = q + 1;
    let e = a + s[p] as usize;
    let f = b + t[q] as usize;
    if (8 <= s[p]) & (8 <= t[q]) {
        return long_order(&s[a..e], &t[b..f]);
    }
    label_order(&s[a..e], &t[b..f])
}

// The signed number of an order that is found behind so many shared labels.
fn signed_number(order: Ordering, shared: usize) -> i16
    requires { shared ≤ 126 }
    ensures { result ≡ signed order shared }
{
    let n = (shared + 1) as i16;
    match order {
        Ordering::Less => -n,
        Ordering::Equal => 0,
        Ordering::Greater => n,
    }
}

// How many labels at the end of two names are seen to be the same: those that begin at one distance from the end, within the octets that
// are the same in blocks. The promise leaves the number free: `from_right` compares the labels before these one by one, so that any number
// that it allows gives the same comparison, and a smaller one only costs time. Names and labels as in `from_right`.
fn seen_shared(
    s: &[u8],
    a: &[u8; Name::MAX_LABELS],
    m: usize,
    t: &[u8],
    b: &[u8; Name::MAX_LABELS],
    n: usize,
) -> usize
    requires { Starts s.now a.now m × Starts t.now b.now n }
    ensures { (result ≤ m) × (result ≤ n) × (drop (m - result) (folded_labels s.now) ≡ drop (n - result) (folded_labels t.now)) }
{
    let most = m.min(n);
    if most == 0 {
        return 0;
    }
    // not before the last labels are seen to be as long as each other: names that share nothing seldom get here
    if s.len() - a[m - 1] as usize != t.len() - b[n - 1] as usize {
        return 0;
    }
    let tail = tail::same_tail(s, t, 16);
    for k in 0..most {
        let d = s.len() - a[m - k - 1] as usize;
        if d != t.len() - b[n - k - 1] as usize {
            return k;
        }
        if tail < d {
            return k;
        }
    }
    most
}

// Compares two names label by label from the right: s has m labels, which begin at the places a, and t has n, at b.
fn from_right(
    s: &[u8],
    a: &[u8; Name::MAX_LABELS],
    m: usize,
    t: &[u8],
    b: &[u8; Name::MAX_LABELS],
    n: usize,
) -> i16
    requires { Starts s.now a.now m × Starts t.now b.now n }
    ensures { result ≡ number_of (folded_labels s.now) (folded_labels t.now) }
{
    let seen = seen_shared(s, a, m, t, b, n);
    for k in seen..m {
        if n <= k {
            return signed_number(Ordering::Greater, k);
        }
        let order = order_at(s, a[m - k - 1] as usize, t, b[n - k - 1] as usize);
        match order {
            Ordering::Less => return signed_number(Ordering::Less, k),
            Ordering::Greater => return signed_number(Ordering::Greater, k),
            Ordering::Equal => {}
        }
    }
    if m < n {
        return signed_number(Ordering::Less, m);
    }
    0
}

// Compares two names: 4, then 11, then zero where they differ in letter case at most, otherwise 1 plus the number of labels that they
// share from the right, negative where the first sorts earlier.
pub fn compare(first: &[u8], second: &[u8]) -> Result<i16, Refusal>
    ensures { said result ≡ compare_of first.now second.now }
{
    let mut a = [0u8; Name::MAX_LABELS];
    let mut b = [0u8; Name::MAX_LABELS];
    let x = mark(first, &mut a);
    match x {
        Err(fault) => Err(Refusal::BadName(fault)),
        Ok(m) => {
            let y = mark(second, &mut b);
            match y {
                Err(fault) => Err(Refusal::BadSecondName(fault)),
                Ok(n) => Ok(from_right(first, &a, m, second, &b, n)),
            }
        }
    }
}

// Compares a name with a second one, which is compared with many, so that its labels were marked before: it has n of them, which begin at
// the places b.
pub fn compare_marked(
    first: &[u8],
    second: &[u8],
    b: &[u8; Name::MAX_LABELS],
    n: usize,
) -> Result<i16, Refusal>
    requires { Starts second.now b.now n }
    ensures { said result ≡ compare_of first.now second.now }
{
    let mut a = [0u8; Name::MAX_LABELS];
    let x = mark(first, &mut a);
    match x {
        Err(fault) => Err(Refusal::BadName(fault)),
        Ok(m) => Ok(from_right(first, &a, m, second, b, n)),
    }
}
