// Type bitmaps (RFC 4034 section 4.1.2): which types exist at a name. What a set of types is, its bitmap, and how a bitmap is read, as
// definitions and laws; `fromtypes` reads bitmaps, and `totypes` writes them.
#![tactic(auto)]

// Why an operation that writes refuses: 15 with its place, or with the index in a list, and 9.
#[derive(Clone, Copy)]
pub enum TypesRefusal {
    NoSet(usize),
    NoRoom,
}

// Octets that are no bitmap: 15 with its place.
#[derive(Clone, Copy)]
pub struct NoBitmap(pub usize);
