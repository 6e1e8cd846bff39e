// The exports on lists of owners. Starts are u32, in the machine's order.
ghost use Rattle.std.specs.Prelude.{◌≡◌};
ghost use Rattle.owners.specs.Answers.{check_owners_of, find_owner_of};
ghost use Rattle.qorshudan.specs.Packed.{packed, found};

// Checks a list of owners: their number, or 1, 2, 3, or 16 with the index of the first owner that breaks it.
#[unsafe(no_mangle)]
pub extern "C" fn qorshudan_check_owners(
    apex: &[u8],
    limit: u64,
    names: &[u8],
    starts: &[u32],
) -> u64
    ensures { result ≡ packed (check_owners_of apex.now limit names.now starts.now) }
{
    qorshudan::lists::qorshudan_check_owners(apex, limit, names, starts)
}

// Finds the last owner of a list that is not after a query: the number of owners looked at, plus 2^8 times 1 plus its index, or 0 for none;
// or 4, or 16 with the index of an owner.
#[unsafe(no_mangle)]
pub extern "C" fn qorshudan_find_owner(names: &[u8], starts: &[u32], query: &[u8]) -> u64
    ensures { result ≡ packed (found (find_owner_of names.now starts.now query.now)) }
{
    qorshudan::lists::qorshudan_find_owner(names, starts, query)
}
