// The closest encloser of a name that does not exist: definitions and laws, and where it stands.
#![tactic(auto)]

// The closest encloser: so many octets at the end of the owner name, or of the next name.
#[derive(Clone, Copy)]
pub enum Encloser {
    OfOwner(usize),
    OfNext(usize),
}
