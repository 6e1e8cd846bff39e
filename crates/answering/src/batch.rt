// Answering the questions at the front of the input, one after the other, as far as they are whole and the answers have room.
ghost use Rattle.std.specs.Prelude.{length};
ghost use Rattle.question.specs.Private.Asked.{Within};
ghost use Rattle.answering.specs.Progress.{run_of, refuses, Runs};
ghost use Rattle.answering.specs.Private.Steps.{Replies, Stops, Steps};

use crate::{Progress, answer, put_number};
use question::reading::read_question;
use question::{NotAsked, Parts};

// One step: a question is answered, with the index of the octet after it and how many octets are written; or the batch has ended, with
// so many octets more; or nothing more is done now.
#[derive(Clone, Copy)]
pub(crate) enum Step {
    Answered(usize, usize),
    Ended(usize),
    Stopped,
}

// Answers the question whose parts these are, if the answer has room.
fn reply(input: &[u8], parts: Parts, space: &mut [u8]) -> Step
    requires { Within input.now parts }
    ensures { Replies input.now parts space.old result space.new }
{
    let apex = parts.apex;
    let name = parts.name;
    let a = apex.start;
    let b = a + apex.len;
    let c = name.start;
    let d = c + name.len;
    let way = parts.way;
    let outcome = answer(&input[a..b], parts.limit, &input[c..d], way, space);
    match outcome {
        Ok(n) => Step::Answered(parts.next, n),
        Err(_) => Step::Stopped,
    }
}

// 13, which ends the batch.
fn refuse(space: &mut [u8]) -> Step
    ensures { Stops (refuses (length space.old)) space.old result space.new }
{
    let outcome = put_number(13, space);
    match outcome {
        Ok(n) => Step::Ended(n),
        Err(_) => Step::Stopped,
    }
}

// What is done about the octets of the input from the index at on.
fn advance(input: &[u8], at: usize, last: bool, space: &mut [u8]) -> Step
    ensures { Steps input.now at last space.old result space.new }
{
    match read_question(input, at) {
        Ok(parts) => reply(input, parts, space),
        Err(NotAsked::Wrong) => refuse(space),
        Err(NotAsked::Cut) => {
            if last {
                return refuse(space);
            }
            Step::Stopped
        }
        Err(NotAsked::End) => {
            if last {
                return Step::Ended(0);
            }
            Step::Stopped
        }
    }
}

// Answers the questions at the front of the input. Only whole questions are read and only whole answers are written. Where this is not
// the last part of the input, a question that is cut off at its end is left unread.
pub fn batch(input: &[u8], last: bool, output: &mut [u8]) -> Progress
    ensures { Runs (run_of last (length output.old) input.now) output.old result output.new }
{
    let mut read = 0;
    let mut written = 0;
    loop {
        let step = advance(input, read, last, &mut output[written..]);
        match step {
            Step::Answered(next, n) => {
                read = next;
                written += n;
            }
            Step::Ended(n) => {
                return Progress {
                    read,
                    written: written + n,
                    ended: true,
                };
            }
            Step::Stopped => {
                return Progress {
                    read,
                    written,
                    ended: false,
                };
            }
        }
    }
}
