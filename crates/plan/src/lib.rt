// What a neighbour of a name in a zone is made of: a plan.
#![tactic(auto)]

pub mod lowering;

// The octets of a neighbour, as parts of the name that it is made of: the greatest labels, one label that is changed, and the rest of the
// name.
#[derive(Clone, Copy)]
pub struct Plan {
    // How many octets the greatest labels in front take.
    pub front: usize,
    // The changed label keeps so many octets of the name, from this index on; where it keeps none, the index is free.
    pub first: usize,
    pub kept: usize,
    // The octet that follows them.
    pub octet: u8,
    // How many octets follow them: that one, and the greatest octet as often as is left. Where it is 0 no label is changed.
    pub tail: usize,
    // Where the rest of the name begins.
    pub rest: usize,
}

// Which neighbour: the one before the name, the one after it, or the first one past it and all names under it.
#[derive(Clone, Copy)]
pub enum Way {
    Before,
    After,
    Past,
}
