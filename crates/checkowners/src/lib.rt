// The check of a list of owners: first the apex, and then folded members of the zone that strictly rise.
#![tactic(auto)]

ghost use Rattle.std.specs.Prelude.{◌≡◌, ◌≤◌, length, Ok};
ghost use Rattle.name.specs.Wire.{reading_of};
ghost use Rattle.space.specs.Fold.{folded};
ghost use Rattle.space.specs.Same.{same_octets};
ghost use Rattle.owners.specs.Layout.{owners_of};
ghost use Rattle.owners.specs.Members.{is_member, follows, unbroken};
ghost use Rattle.owners.specs.Sizes.{most_owners, most_octets};
ghost use Rattle.owners.specs.Answers.{said, check_laid_out, check_owners_of};
ghost use Rattle.checkowners.specs.Private.Zones.{Zone};

use checks::Depth;
use name::Name;
use owners::{Look, OwnersRefusal};

// Whether octets are folded. It looks at all of them, which is faster than to stop early.
fn is_folded(s: &[u8]) -> bool
    ensures { result ≡ same_octets (folded s.now) s.now }
{
    let mut same = true;
    for o in s {
        same = same & (space::lower(*o) == *o);
    }
    same
}

// Whether a name is a folded member of the zone.
fn is_member(apex: &[u8], limit: u64, name: &[u8]) -> bool
    requires { Zone apex.now limit }
    ensures { result ≡ is_member apex.now limit name.now }
{
    let place = checks::place(apex, limit, Depth::All, name);
    if place < Name::MAX_LEN {
        return is_folded(name);
    }
    false
}

// Whether an owner may come behind another.
fn is_next(apex: &[u8], limit: u64, before: &[u8], owner: &[u8]) -> bool
    requires { Zone apex.now limit × (reading_of before.now ≡ Ok tt) }
    ensures { result ≡ follows apex.now limit before.now owner.now }
{
    if is_member(apex, limit, owner) {
        let seen = owners::looking::look(owner, before);
        match seen {
            Look::After => return true,
            Look::NotAfter => return false,
            Look::Broken => return false,
        }
    }
    false
}

// Whether octets are those of the folded apex.
fn is_apex(apex: &[u8], owner: &[u8]) -> bool
    ensures { result ≡ same_octets owner.now (folded apex.now) }
{
    if owner.len() != apex.len() {
        return false;
    }
    if is_folded(owner) {
        return space::same_folded(owner, 0, apex);
    }
    false
}

// How many owners of a list, from the front on, do not break it.
fn count_unbroken(apex: &[u8], limit: u64, names: &[u8], starts: &[u32]) -> usize
    requires { Zone apex.now limit × (1 ≤ length starts.now) }
    ensures { result ≡ unbroken apex.now limit (owners_of names.now starts.now) }
{
    let first = owners::laying::owner_at(names, starts, 0);
    if is_apex(apex, first) {
        for i in 1..starts.len() {
            let before = owners::laying::owner_at(names, starts, i - 1);
            let owner = owners::laying::owner_at(names, starts, i);
            if !is_next(apex, limit, before, owner) {
                return i;
            }
        }
        return starts.len();
    }
    0
}

// The number of owners of a list that begins at the front, or the index of the first that breaks it.
fn check_list(apex: &[u8], limit: u64, names: &[u8], starts: &[u32]) -> Result<usize, OwnersRefusal>
    requires { Zone apex.now limit }
    ensures { said result ≡ check_laid_out most_owners most_octets apex.now limit names.now starts.now }
{
    if owners::laying::too_large(names, starts) {
        return Err(OwnersRefusal::NoList(0));
    }
    if starts.len() == 0 {
        return Err(OwnersRefusal::NoList(0));
    }
    if starts[0] != 0 {
        return Err(OwnersRefusal::NoList(0));
    }
    let n = count_unbroken(apex, limit, names, starts);
    if n < starts.len() {
        return Err(OwnersRefusal::NoList(n));
    }
    Ok(n)
}

// The number of owners of a list that a zone may have: 1, 2 and 3, then 16 with the index of the first owner that breaks it. The apex is
// checked as a name of its own zone.
pub fn check_owners(
    apex: &[u8],
    limit: u64,
    names: &[u8],
    starts: &[u32],
) -> Result<usize, OwnersRefusal>
    ensures { said result ≡ check_owners_of apex.now limit names.now starts.now }
{
    let place = checks::place(apex, limit, Depth::All, apex);
    if place < Name::MAX_LEN {
        return check_list(apex, limit, names, starts);
    }
    Err(OwnersRefusal::Refused(checks::why(apex, limit, apex)))
}
