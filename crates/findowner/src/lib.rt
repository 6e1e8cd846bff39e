// The lookup in a list of owners: the last owner that is not after a query, by halving.
#![tactic(auto)]

ghost use Rattle.std.specs.Prelude.{◌≡◌, length};
ghost use Rattle.name.specs.Private.Marks.{Starts};
ghost use Rattle.owners.specs.Layout.{owners_of};
ghost use Rattle.owners.specs.Halving.{halving};
ghost use Rattle.owners.specs.Answers.{said_lookup, look_in, find_owner_of};
ghost use Rattle.owners.specs.Private.Looks.{found_below};

use name::starts::mark;
use name::{Name, Refusal};
use owners::{Found, Look, OwnersRefusal};

// What is found where the owners below an index are not after the query.
fn found_below(low: usize, looks: usize) -> Found
    ensures { result ≡ found_below low looks }
{
    if low == 0 {
        return Found::NoOwner(looks);
    }
    Found::Owner(low - 1, looks)
}

// Halves the indexes until none is left: the owners below `low` are not after the query, and those from `high` on are, as far as they were
// looked at. The labels of the query are marked once for all looks: it has n of them, which begin at these places.
fn halve(
    names: &[u8],
    starts: &[u32],
    query: &[u8],
    places: &[u8; Name::MAX_LABELS],
    n: usize,
) -> Result<Found, OwnersRefusal>
    requires { Starts query.now places.now n }
    ensures { said_lookup result ≡ halving (look_in (owners_of names.now starts.now) query.now)
        (length starts.now) }
{
    let mut low = 0;
    let mut high = starts.len();
    let mut looks = 0;
    while low < high {
        let middle = (low + high) / 2;
        let owner = owners::laying::owner_at(names, starts, middle);
        let seen = owners::looking::look_marked(owner, query, places, n);
        match seen {
            Look::Broken => return Err(OwnersRefusal::NoList(middle)),
            Look::NotAfter => low = middle + 1,
            Look::After => high = middle,
        }
        looks += 1;
    }
    Ok(found_below(low, looks))
}

// The last owner of a list that halving finds not after a query, and the number of owners looked at: 4, then 16.
pub fn find_owner(names: &[u8], starts: &[u32], query: &[u8]) -> Result<Found, OwnersRefusal>
    ensures { said_lookup result ≡ find_owner_of names.now starts.now query.now }
{
    let mut places = [0u8; Name::MAX_LABELS];
    let found = mark(query, &mut places);
    match found {
        Err(fault) => Err(OwnersRefusal::Refused(Refusal::BadName(fault))),
        Ok(n) => {
            if owners::laying::too_large(names, starts) {
                return Err(OwnersRefusal::NoList(0));
            }
            halve(names, starts, query, &places, n)
        }
    }
}
