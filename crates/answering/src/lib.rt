// Answering questions: one, and the questions at the front of a batch's input. The operation that a question asks for writes its answer
// straight behind the place of the two fields' heads.
#![tactic(auto)]

pub mod batch;

ghost use Rattle.std.specs.Prelude.{◌≡◌, [], ◌∷◌, ◌≤◌, min};
ghost use Rattle.name.specs.Answer.{answer, said, Fills};
ghost use Rattle.question.specs.Fields.{field};
ghost use Rattle.question.specs.Question.{asking};
ghost use Rattle.answering.specs.Answering.{result_of, answered};
ghost use Rattle.answering.specs.Private.Heads.{refusal_front, Headed};

use alphabet::Alphabet;
use figures::tell;
use name::Refusal;
use neighbour::modified::{modified_predecessor, modified_successor};
use neighbour::predecessor::predecessor;
use neighbour::successor::successor;
use question::Way;

// How many octets stand before the name in an answer: the field with the number, and the tag and the length of the field with the name.
const HEADS: usize = 7;

// How far a batch has come: how many octets of the input are read, how many octets of the space are written, and whether it has ended.
#[derive(Clone, Copy)]
pub struct Progress {
    pub read: usize,
    pub written: usize,
    pub ended: bool,
}

// The operation that the way asks for, in the full alphabet and at depth 1.
fn operate(
    apex: &[u8],
    limit: u8,
    name: &[u8],
    way: Way,
    space: &mut [u8],
) -> Result<usize, Refusal>
    ensures { Fills (result_of (asking apex.now limit name.now way))
        space.old (said result) space.new }
{
    let most = limit as u64;
    match way {
        Way::AbsolutePredecessor => predecessor(Alphabet::Full, apex, most, name, space),
        Way::AbsoluteSuccessor => successor(Alphabet::Full, apex, most, name, space),
        Way::ModifiedPredecessor => {
            modified_predecessor(Alphabet::Full, 1, apex, most, name, space)
        },
        Way::ModifiedSuccessor => {
            modified_successor(Alphabet::Full, 1, apex, most, name, space)
        },
    }
}

// Writes the field with a number to the front of space, or 9.
pub(crate) fn put_number(n: u8, space: &mut [u8]) -> Result<usize, Refusal>
    ensures { Fills (answer (field 16 (n ∷ []))) space.old (said result) space.new }
{
    if space.len() < 4 {
        return Err(Refusal::NoRoom);
    }
    space[0] = 16;
    space[1] = 0;
    space[2] = 1;
    space[3] = n;
    Ok(4)
}

// Writes the field with the number of a refusal, or 9. An operation that has no room for its name says 9, which no answer carries.
fn put_refusal(why: Refusal, space: &mut [u8]) -> Result<usize, Refusal>
    ensures { Fills (refusal_front why) space.old (said result) space.new }
{
    let told = tell(why);
    if told.number == 9 {
        return Err(Refusal::NoRoom);
    }
    put_number(told.number, space)
}

// Writes the heads of an answer's two fields before a name of n octets that stands behind them, or 9.
fn put_heads(n: usize, space: &mut [u8]) -> Result<usize, Refusal>
    requires { n ≤ 255 }
    ensures { Headed n space.old (said result) space.new }
{
    if space.len() < HEADS {
        return Err(Refusal::NoRoom);
    }
    space[0] = 16;
    space[1] = 0;
    space[2] = 1;
    space[3] = 0;
    space[4] = 17;
    space[5] = 0;
    space[6] = n as u8;
    Ok(HEADS + n)
}

fn least(a: usize, b: usize) -> usize
    ensures { result ≡ min a b }
{
    if a < b {
        return a;
    }
    b
}

// Writes the octets of the answer to a question to the front of space, or 9.
pub fn answer(
    apex: &[u8],
    limit: u8,
    name: &[u8],
    way: Way,
    space: &mut [u8],
) -> Result<usize, Refusal>
    ensures { Fills (answer (answered (asking apex.now limit name.now way)))
        space.old (said result) space.new }
{
    let from = least(HEADS, space.len());
    let outcome = operate(apex, limit, name, way, &mut space[from..]);
    match outcome {
        Err(why) => put_refusal(why, space),
        Ok(n) => put_heads(n, space),
    }
}
