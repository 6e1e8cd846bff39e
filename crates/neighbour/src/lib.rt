// The absolute and the modified neighbours of a name in a zone.
#![tactic(auto)]

pub mod modified;
pub mod nearest;
pub mod predecessor;
pub mod successor;
