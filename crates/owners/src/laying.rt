// How a list is laid out: whether it is too large, and which octets an owner has.
ghost use Rattle.std.specs.Prelude.{◌≡◌, [], ◌+◌, ◌<◌, length, get_or};
ghost use Rattle.owners.specs.Layout.{owners_of};
ghost use Rattle.owners.specs.Sizes.{most_owners, most_octets, is_too_large};

use crate::{MOST_OCTETS, MOST_OWNERS};

// Whether a list has more owners or more octets than a list may have.
pub fn too_large(names: &[u8], starts: &[u32]) -> bool
    ensures { result ≡ is_too_large most_owners most_octets names.now starts.now }
{
    if MOST_OWNERS < starts.len() {
        return true;
    }
    if MOST_OCTETS < names.len() {
        return true;
    }
    false
}

// Where the owner of an index ends: at the next start, or at the end of the names.
fn end_of(names: &[u8], starts: &[u32], i: usize) -> usize
    requires { i < length starts.now }
    ensures { result ≡ get_or starts.now (i + 1) (length names.now) }
{
    let next = i + 1;
    if next < starts.len() {
        return starts[next] as usize;
    }
    names.len()
}

// The octets of the owner of an index; none where the index, or the owner's start or end, is out of range.
pub fn owner_at<'a>(names: &'a [u8], starts: &[u32], i: usize) -> &'a [u8]
    ensures { result.now ≡ get_or (owners_of names.now starts.now) i [] }
{
    if starts.len() <= i {
        return &names[0..0];
    }
    let start = starts[i] as usize;
    let end = end_of(names, starts, i);
    if names.len() < end {
        return &names[0..0];
    }
    if end < start {
        return &names[0..0];
    }
    &names[start..end]
}
