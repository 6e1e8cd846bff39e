// Answers a batch from standard input to standard output. Each read takes what has come, and all questions that are whole by then are
// answered at once, so that the program over it can stand in a pipe, also in one that does not block.
//
// A read or a write that is interrupted or not ready is made again (crate descriptors). Any other that fails ends the batch, and is told on
// standard error, with the octets read and written; a failed read is not the end of the input, so that it gets no answer 13.
//
// What the loop rests on: each call of `answering::batch::batch` promises what it reads and writes, a question that is cut off stays at
// the front of the buffer until more octets have come, and crates/answering/proofs/Piecewise.antt shows that the answers so written,
// joined, are those of the whole input, whatever the pieces are. A buffer never fills up with a question that is cut off, since that has
// fewer than 1,214 octets.
#![tactic(auto)]

ghost use Rattle.std.specs.Prelude.{◌<◌, ◌≤◌, length};
ghost use Rattle.stream.specs.Private.Left.{Answered, Unread, Held};

use answering::batch::batch;
use descriptors::{receive, send};
use space::keep;
use std::fmt::InlineText;
use std::io;
use std::rt::Clock;

// How many octets have been read from standard input and written to standard output.
#[derive(Clone, Copy)]
pub struct Counts {
    pub read: u64,
    pub written: u64,
}

// The system's words in the text of an error: std writes its number behind them.
fn words(text: &str) -> &str {
    match text.rsplit_once(" (os error ") {
        Some((words, _)) => words,
        None => text,
    }
}

// Tells on standard error, which is `errors`, what has just failed and why, and how far the program had come. What cannot be told is lost:
// there is nowhere else to tell it.
pub fn stopped<E: Print>(errors: &E, what: &[u8], why: io::Error, counts: Counts) {
    let text = InlineText::<320>::of(why);
    let words = words(text.as_str());
    let Counts { read, written } = counts;
    let _ = errors.write_all(what);
    let _ = println!(errors; ": {words}");
    let _ = println!(errors; "batch: {read} octets read, {written} octets written");
}

// Answers the whole questions at the front, as far as the output has room, and tells how many octets they have. None are left to answer
// where that is 0.
fn advance<R: Print + Clock, E: Print>(
    rt: &R,
    errors: &E,
    octets: &[u8],
    last: bool,
    output: &mut [u8],
    counts: Counts,
) -> Option<(usize, Counts)>
    requires { 262 ≤ length output.old }
    ensures { Answered (length octets.now) result }
{
    let progress = batch(octets, last, output);
    let n = progress.written;
    let sent = send(rt, &output[..n]);
    let so_far = Counts {
        read: counts.read,
        written: counts.written.wrapping_add(sent.octets as u64),
    };
    if let Some(why) = sent.failure {
        stopped(errors, b"batch: standard output", why, so_far);
        return None;
    }
    if progress.ended {
        return None;
    }
    Some((progress.read, so_far))
}

// Answers all whole questions in the octets in hand, and tells where the rest begins.
fn reply<R: Print + Clock, E: Print>(
    rt: &R,
    errors: &E,
    octets: &[u8],
    last: bool,
    output: &mut [u8],
    counts: Counts,
) -> Option<(usize, Counts)>
    requires { 262 ≤ length output.old }
    ensures { Unread (length octets.now) result }
{
    let mut at = 0;
    let mut so_far = counts;
    loop {
        let (n, then) = advance(rt, errors, &octets[at..], last, output, so_far)?;
        if n == 0 {
            return Some((at, then));
        }
        at += n;
        so_far = then;
    }
}

// Answers the octets in hand, the first `end` of the input, and moves what is left of them to the front: so many octets.
fn settle<R: Print + Clock, E: Print>(
    rt: &R,
    errors: &E,
    input: &mut [u8],
    end: usize,
    last: bool,
    output: &mut [u8],
    counts: Counts,
) -> Option<(usize, Counts)>
    requires { (end ≤ length input.old) × (262 ≤ length output.old) }
    ensures { Held result }
{
    let (at, then) = reply(rt, errors, &input[..end], last, output, counts)?;
    let n = end - at;
    keep(input, at, n);
    Some((n, then))
}

// Reads what has come behind the octets held at the front of the input, and answers. A read of nothing is the end of the input.
fn turn<R: Input + Print + Clock, E: Print>(
    rt: &R,
    errors: &E,
    input: &mut [u8],
    held: usize,
    output: &mut [u8],
    counts: Counts,
) -> Option<(usize, Counts)>
    requires { (held < length input.old) × (262 ≤ length output.old) }
    ensures { Held result }
{
    let n = match receive(rt, &mut input[held..]) {
        Ok(n) => n,
        Err(why) => {
            stopped(errors, b"batch: standard input", why, counts);
            return None;
        }
    };
    let so_far = Counts {
        read: counts.read.wrapping_add(n as u64),
        written: counts.written,
    };
    settle(rt, errors, input, held + n, n == 0, output, so_far)
}

// Answers the batch. A proved loop has to end, and nothing says that an input does, so the loop has a number of turns that no run uses up.
fn run<R: Input + Print + Clock, E: Print>(rt: &R, errors: &E, input: &mut [u8], output: &mut [u8])
    requires { (1214 ≤ length input.old) × (262 ≤ length output.old) }
{
    let mut held = 0;
    let mut counts = Counts {
        read: 0,
        written: 0,
    };
    for _ in 0..u64::MAX {
        let left = turn(rt, errors, input, held, output, counts);
        match left {
            None => return,
            Some((n, then)) => {
                held = n;
                counts = then;
            }
        }
    }
}

// Answers the batch that standard input holds, to its end. Standard error is `errors`.
pub fn answer<R: Input + Print + Clock, E: Print>(rt: &R, errors: &E) {
    let mut input = [0u8; 65536];
    let mut output = [0u8; 65536];
    run(rt, errors, &mut input, &mut output);
}
