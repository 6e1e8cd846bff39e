// Where two names come together: the longest ancestor that they share, and which of them sorts first. Each name is walked once, from the
// left, and noted on the way is the first place with no more octets behind it than are the same at the end of both.
ghost use Rattle.std.specs.Prelude.{◌≡◌, ◌≤◌};
ghost use Rattle.enclosing.specs.Private.Ends.{SameEnd};
ghost use Rattle.enclosing.specs.Private.Forks.{Stands, Advances, Nears, Scans, Forks};
ghost use Rattle.enclosing.specs.Private.Relations.{relation_of};

use name::Name;
use std::cmp::Ordering;

// A place in a name where a label begins, or the name ends, and the place where the label before it begins, if there is one.
#[derive(Clone, Copy)]
pub struct Reached {
    pub label: usize,
    pub at: usize,
}

// Two names come together at the place p of the first and q of the second; the labels before these begin at a and at b.
#[derive(Clone, Copy)]
pub struct Fork {
    pub a: usize,
    pub p: usize,
    pub b: usize,
    pub q: usize,
}

// The first name sorts before the second, is the same one, or sorts after it, with the octets of the longest ancestor that they share; or
// the second is no name.
#[derive(Clone, Copy)]
pub enum Relation {
    Before(usize),
    Equal,
    After(usize),
    Unrelated,
}

// How many octets at the end of s and of t are the same, folded: blocks of them, and then one by one.
pub(crate) fn same_end(s: &[u8], t: &[u8]) -> usize
    ensures { SameEnd s.now t.now result }
{
    for c in tail::same_tail(s, t, 8)..s.len() {
        if t.len() <= c {
            return c;
        }
        let x = space::lower(s[s.len() - c - 1]);
        let y = space::lower(t[t.len() - c - 1]);
        if x != y {
            return c;
        }
    }
    s.len()
}

// Reads octets as one whole name, and notes the first place where a label begins, or the name ends, with at most so many octets behind it.
pub(crate) fn scan(s: &[u8], most: usize) -> Option<Reached>
    ensures { Scans s.now most result }
{
    let mut label = 0;
    let mut at = 0;
    let mut p = 0;
    while p < s.len() {
        let o = s[p] as usize;
        let q = p + 1;
        if o == 0 {
            if q < s.len() {
                return None;
            }
            return Some(Reached { label, at });
        }
        if o > Name::MAX_LABEL {
            return None;
        }
        let e = q + o;
        if e >= Name::MAX_LEN {
            return None;
        }
        if most < s.len() - p {
            label = p;
            at = e;
        }
        p = e;
    }
    None
}

// The first place from `at` on where a label begins, or the name ends, with at most so many octets behind it.
fn advance(s: &[u8], label: usize, at: usize, most: usize) -> Reached
    requires { Stands s.now label at × (1 ≤ most) }
    ensures { Advances s.now at most result }
{
    let mut l = label;
    let mut p = at;
    while most < s.len() - p {
        l = p;
        p = p + 1 + s[p] as usize;
    }
    Reached { label: l, at: p }
}

// Where two names come together, from places that both of them come to before that: the one with more octets left goes on to the next
// label, from where so many octets are left as are the same.
fn find_fork(s: &[u8], u: Reached, t: &[u8], v: Reached, same: usize) -> Fork
    requires { Nears s.now same u × Nears t.now same v × SameEnd s.now t.now same }
    ensures { Forks s.now t.now result }
{
    let x = advance(s, u.label, u.at, same);
    let mut a = x.label;
    let mut p = x.at;
    let y = advance(t, v.label, v.at, s.len() - p);
    let mut b = y.label;
    let mut q = y.at;
    while s.len() - p != t.len() - q {
        let x = advance(s, a, p, t.len() - q);
        a = x.label;
        p = x.at;
        let y = advance(t, b, q, s.len() - p);
        b = y.label;
        q = y.at;
    }
    Fork { a, p, b, q }
}

// How one name stands to another, by the labels before the places where they come together.
fn relate_names(s: &[u8], u: Reached, t: &[u8], v: Reached, same: usize) -> Relation
    requires { Nears s.now same u × Nears t.now same v × SameEnd s.now t.now same }
    ensures { result ≡ relation_of s.now t.now }
{
    let f = find_fork(s, u, t, v, same);
    let p = f.p;
    let q = f.q;
    let octets = t.len() - q;
    if p == 0 {
        if q == 0 {
            return Relation::Equal;
        }
        return Relation::Before(octets);
    }
    if q == 0 {
        return Relation::After(octets);
    }
    let a = f.a + 1;
    let b = f.b + 1;
    let order = order::label_order(&s[a..p], &t[b..q]);
    match order {
        Ordering::Less => Relation::Before(octets),
        // the labels before those that are shared are never the same
        Ordering::Equal => Relation::Equal,
        Ordering::Greater => Relation::After(octets),
    }
}

// How a name, walked up to a place, stands to other octets, where so many octets at the end of both are the same.
pub(crate) fn relate(s: &[u8], u: Reached, t: &[u8], same: usize) -> Relation
    requires { Nears s.now same u × SameEnd s.now t.now same }
    ensures { result ≡ relation_of s.now t.now }
{
    let found = scan(t, same);
    match found {
        None => Relation::Unrelated,
        Some(v) => relate_names(s, u, t, v, same),
    }
}
