// What is asked of a type bitmap: whether it has a type, the smallest and the largest. The crate below counts types and reads them.
#![tactic(auto)]

pub mod extremes;
pub mod members;
