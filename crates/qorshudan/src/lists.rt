// The functions for C on lists of owners. Starts are u32, in the machine's order.
ghost use Rattle.std.specs.Prelude.{◌≡◌, ◌^◌, ◌<◌};
ghost use Rattle.name.specs.Answer.{answer, value};
ghost use Rattle.owners.specs.Answers.{said, said_lookup, check_owners_of, find_owner_of};
ghost use Rattle.qorshudan.specs.Packed.{packed, found_value, found};

use crate::{pack, pack_outcome};
use owners::{Found, OwnersRefusal};

fn pack_owners(outcome: Result<usize, OwnersRefusal>) -> u64
    requires { value (said outcome) < 2 ^ 32 }
    ensures { result ≡ packed (said outcome) }
{
    match outcome {
        Ok(n) => pack(0, 0, n),
        Err(OwnersRefusal::Refused(why)) => pack_outcome(Err(why)),
        Err(OwnersRefusal::NoList(i)) => pack(16, 0, i),
    }
}

// Checks a list of owners: their number, or 1, 2, 3, or 16 with the index of the first owner that breaks it.
pub fn qorshudan_check_owners(apex: &[u8], limit: u64, names: &[u8], starts: &[u32]) -> u64
    ensures { result ≡ packed (check_owners_of apex.now limit names.now starts.now) }
{
    pack_owners(checkowners::check_owners(apex, limit, names, starts))
}

fn pack_found(owner: Found) -> u64
    requires { found_value owner < 2 ^ 32 }
    ensures { result ≡ packed (answer (found_value owner)) }
{
    match owner {
        Found::Owner(i, looks) => pack(0, 0, looks + 256 * (1 + i)),
        Found::NoOwner(looks) => pack(0, 0, looks),
    }
}

fn pack_lookup(outcome: Result<Found, OwnersRefusal>) -> u64
    requires { value (found (said_lookup outcome)) < 2 ^ 32 }
    ensures { result ≡ packed (found (said_lookup outcome)) }
{
    match outcome {
        Ok(owner) => pack_found(owner),
        Err(OwnersRefusal::Refused(why)) => pack_outcome(Err(why)),
        Err(OwnersRefusal::NoList(index)) => pack(16, 0, index),
    }
}

// Finds the last owner of a list that is not after a query: the number of owners looked at, plus 2^8 times 1 plus its index, or 0 for none;
// or 4, or 16 with the index of an owner.
pub fn qorshudan_find_owner(names: &[u8], starts: &[u32], query: &[u8]) -> u64
    ensures { result ≡ packed (found (find_owner_of names.now starts.now query.now)) }
{
    pack_lookup(findowner::find_owner(names, starts, query))
}
