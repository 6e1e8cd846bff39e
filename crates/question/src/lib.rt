// Questions of a batch (document 02, request Three): the places of a question's parts in octets. Their writer is crate toquestion.
#![tactic(auto)]

pub mod reading;

ghost use Rattle.std.specs.Prelude.{◌≡◌};
ghost use Rattle.question.specs.Way.{octet_of, way_of};

// The tags of a question's fields, in their order.
pub const APEX_TAG: u8 = 1;

pub const LIMIT_TAG: u8 = 2;

pub const NAME_TAG: u8 = 3;

pub const WAY_TAG: u8 = 4;

// The most octets of a value.
pub const MOST_VALUE: usize = 600;

// What a question asks for: one of the four neighbours.
#[derive(Clone, Copy)]
pub enum Way {
    AbsolutePredecessor,
    AbsoluteSuccessor,
    ModifiedPredecessor,
    ModifiedSuccessor,
}

// A part of the input: the index of its first octet, and how many it has.
#[derive(Clone, Copy)]
pub struct Part {
    pub start: usize,
    pub len: usize,
}

// The parts of a question, and the index of the octet after it.
#[derive(Clone, Copy)]
pub struct Parts {
    pub apex: Part,
    pub limit: u8,
    pub name: Part,
    pub way: Way,
    pub next: usize,
}

// Why no whole question stands at an index of the input: an octet that no question has there; a beginning of a question, cut off; or no
// octet.
#[derive(Clone, Copy)]
pub enum NotAsked {
    Wrong,
    Cut,
    End,
}

// Why no question is written: 13, and 9.
#[derive(Clone, Copy)]
pub enum QuestionRefusal {
    NoQuestion,
    NoRoom,
}

// The octet that stands for a way.
pub fn octet_of(way: Way) -> u8
    ensures { result ≡ octet_of way }
{
    match way {
        Way::AbsolutePredecessor => 0,
        Way::AbsoluteSuccessor => 1,
        Way::ModifiedPredecessor => 2,
        Way::ModifiedSuccessor => 3,
    }
}

// The way that a number stands for; one above 3 stands for none.
pub fn way_of(number: u64) -> Option<Way>
    ensures { result ≡ way_of number }
{
    match number {
        0 => Some(Way::AbsolutePredecessor),
        1 => Some(Way::AbsoluteSuccessor),
        2 => Some(Way::ModifiedPredecessor),
        3 => Some(Way::ModifiedSuccessor),
        _ => None,
    }
}
