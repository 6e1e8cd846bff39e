// Lists of a zone's owners: the names back to back, and a table of their starts. What a list lays out, when it is accepted, and how it is
// searched, as definitions and laws; `checkowners` checks a list, and `findowner` searches one.
#![tactic(auto)]

pub mod laying;
pub mod looking;

use name::Refusal;

// The most owners of a list.
pub const MOST_OWNERS: usize = 16384;

// The most octets of their names: 4 MiB.
pub const MOST_OCTETS: usize = 4194304;

// Why a list or a lookup in one is refused: 1 to 4 for apex, limit and query, and 16 with the index of an owner.
#[derive(Clone, Copy)]
pub enum OwnersRefusal {
    Refused(Refusal),
    NoList(usize),
}

// What an owner that is looked at tells of the query: to go on above it, to go on below it, or that it is no name.
#[derive(Clone, Copy)]
pub enum Look {
    NotAfter,
    After,
    Broken,
}

// What a lookup finds: the index of the last owner that is found not after the query, or none, and the number of owners looked at.
#[derive(Clone, Copy)]
pub enum Found {
    Owner(usize, usize),
    NoOwner(usize),
}
