// Octets written into a space: copied, folded, filled in and moved to its front. Each function writes all of its octets or none, so that
// none of them asks anything of its caller. And octets compared as they are folded.
#![tactic(auto)]

mod copying;
mod folding;
mod sameness;

ghost use Rattle.std.specs.Prelude.{◌≡◌, ◌+◌, leb, length, take, drop, replicate};
ghost use Rattle.space.specs.Fold.{lower_of, folded};
ghost use Rattle.space.specs.Same.{same_octets};
ghost use Rattle.space.specs.Private.Put.{put, put_folded, end_count, put_end, kept};

// The octet, as a lower-case letter where it is an upper-case one.
pub fn lower(o: u8) -> u8
    ensures { result ≡ lower_of o }
{
    if b'A' <= o {
        if o <= b'Z' {
            return o + 32;
        }
    }
    o
}

// Whether n octets from index at on are among len octets.
fn within(at: usize, n: usize, len: usize) -> bool
    ensures { result ≡ leb (at + n) len }
{
    if len < at {
        return false;
    }
    if len - at < n {
        return false;
    }
    true
}

// Copies s to d from index at on, and nothing where it has no room.
pub fn put(d: &mut [u8], at: usize, s: &[u8])
    ensures { d.new ≡ put d.old at s.now }
{
    if within(at, s.len(), d.len()) {
        for i in 0..s.len() {
            d[at + i] = s[i];
        }
    }
}

// The same in blocks, for a name. The loop of put is faster where the compiler knows how many octets there are.
pub fn put_blocks(d: &mut [u8], at: usize, s: &[u8])
    ensures { d.new ≡ put d.old at s.now }
{
    if within(at, s.len(), d.len()) {
        copying::copy(d, at, s);
    }
}

// Copies n octets of s from index from on, folded, to d from index at on, and nothing where s or d has not so many octets.
pub fn put_folded(d: &mut [u8], at: usize, s: &[u8], from: usize, n: usize)
    ensures { d.new ≡ put_folded d.old at s.now from n }
{
    if within(from, n, s.len()) {
        if within(at, n, d.len()) {
            folding::copy_folded(d, at, s, from, n);
        }
    }
}

// The same for one block of 16 octets.
pub fn put_block(d: &mut [u8], at: usize, s: &[u8], from: usize)
    ensures { d.new ≡ put_folded d.old at s.now from 16 }
{
    if within(from, 16, s.len()) {
        if within(at, 16, d.len()) {
            folding::fold_block(d, at, s, from, 16);
        }
    }
}

// How many of the last size octets are copied before index end, where rest of them are to stand there.
fn end_count(rest: usize, size: usize, end: usize) -> usize
    ensures { result ≡ end_count rest size end }
{
    if size.min(end) < 16 {
        return rest;
    }
    rest.max(16)
}

// Copies the octets of s from index from on, folded, so that they end at index end of d, and nothing where they have no room there. Where s
// and d up to end have 16 octets it copies 16 at least, so that up to 15 octets before the place of those asked for change too.
pub fn put_end(d: &mut [u8], end: usize, s: &[u8], from: usize)
    ensures { d.new ≡ put_end d.old end s.now from }
{
    let size = s.len();
    let n = end_count(size.saturating_sub(from), size, end);
    if n <= end {
        put_folded(d, end - n, s, size - n, n);
    }
}

// Whether the octets of s from index at on begin with those of t, folded. It looks at all of them, which is faster than to stop early.
pub fn same_folded(s: &[u8], at: usize, t: &[u8]) -> bool
    ensures { result ≡ same_octets (folded (take (length t.now) (drop at s.now))) (folded t.now) }
{
    let n = t.len();
    if n == 0 {
        return true;
    }
    if within(at, n, s.len()) {
        return sameness::same_octets(s, at, t);
    }
    false
}

// Writes an octet n times to d from index at on, and nothing where d has not so many octets.
pub fn fill(d: &mut [u8], at: usize, n: usize, octet: u8)
    ensures { d.new ≡ put d.old at (replicate n octet) }
{
    if within(at, n, d.len()) {
        for i in 0..n {
            d[at + i] = octet;
        }
    }
}

// Moves n octets from index from on to the front, and nothing where there are not so many.
pub fn keep(d: &mut [u8], from: usize, n: usize)
    ensures { d.new ≡ kept d.old from n }
{
    if within(from, n, d.len()) {
        for i in 0..n {
            d[i] = d[from + i];
        }
    }
}
