// The readers of type bitmaps: the check that serves everything that is asked of one, how many types it has, and the list of them.
#![tactic(auto)]

pub mod checking;
pub mod counting;
pub mod reading;
