// Answers a batch: reads questions from standard input and writes their answers to standard output (crate stream).
// `--help` tells the format, `--version` the version; any other argument is wrong usage, and then nothing is read.
//
// The exit status is always 0. A script tests that nothing was written to standard error; the batch is complete where every question has
// its answer.
#![tactic(auto)]

use descriptors::send;
use std::env::FillError;
use std::rt::{Clock, Env};
use stream::{Counts, answer, stopped};

// What `--version` says.
const VERSION: [u8; 24] = *b"batch (Qorshudan) 0.5.0\n";

// What the arguments ask for.
#[derive(Clone, Copy)]
enum Task {
    Answer,
    Help,
    Version,
    Unknown,
}

// Writes a text to standard output. Standard error is `errors`.
fn say<R: Print + Clock, E: Print>(rt: &R, errors: &E, text: &[u8]) {
    let sent = send(rt, text);
    if let Some(why) = sent.failure {
        stopped(
            errors,
            b"batch: standard output",
            why,
            Counts {
                read: 0,
                written: sent.octets as u64,
            },
        );
    }
}

// Whether there is an argument of this index, 0 being the program's name, however long it is.
fn has_argument<R: Env>(rt: &R, index: usize) -> bool {
    match rt.arg(index, &mut [0u8; 16]) {
        Ok(_) => true,
        Err(FillError::TooLong) => true,
        Err(FillError::NotPresent) => false,
    }
}

// What the program is asked to do. An argument that does not fit the space is none that is known.
fn asked<R: Env>(rt: &R) -> Task {
    if !has_argument(rt, 1) {
        return Task::Answer;
    }
    if has_argument(rt, 2) {
        return Task::Unknown;
    }
    let mut space = [0u8; 16];
    let Ok(n) = rt.arg(1, &mut space) else {
        return Task::Unknown;
    };
    let word = &space[..n];
    if word == b"--help".as_slice() {
        return Task::Help;
    }
    if word == b"--version".as_slice() {
        return Task::Version;
    }
    Task::Unknown
}

fn usage<E: Print>(errors: &E) {
    // what cannot be told is lost: there is nowhere else to tell it
    let _ = errors.write_all(
        b"batch: wrong usage: --help and --version are the only arguments
usage: batch [--help | --version] < QUESTIONS > ANSWERS
",
    );
}

fn help<R: Print + Clock, E: Print>(rt: &R, errors: &E) {
    say(
        rt,
        errors,
        b"usage: batch [--help | --version] < QUESTIONS > ANSWERS

Answers questions about the names next to a name in a DNS zone. Questions are
read from standard input as they come, and an answer is written to standard
output as soon as its question is whole.

A question is four fields in this order, each a tag, a length in two octets
(high octet first) and a value of at most 600 octets:
  01  apex   a name in wire format
  02  limit  one octet, the most octets that a name of the zone may have
  03  name   a name in wire format
  04  way    one octet: 0 absolute before, 1 absolute after,
             2 modified before, 3 modified after
An answer is field 10 (hexadecimal) with a number in one octet and, after
number 0, field 11 with the name. Number 13 answers what is no question, or a
question that the end of the input cuts off, and ends the batch. README.md has
the other numbers.

A read or a write that is interrupted is made again, and one that is not ready,
as on a pipe that does not block, is tried again every millisecond. Any other
that fails ends the program, with two lines on standard error: what failed and
why, and how many octets were read and written.

There is no exit status to test: it is 0 unless a signal ends the program, as
SIGPIPE does where nobody reads the answers any more. A script tests instead
that nothing was written to standard error; the batch is complete where every
question has its answer.
",
    );
}

fn main(rt: HostRuntime) {
    let errors = rt.stderr();
    match asked(&rt) {
        Task::Answer => answer(&rt, &errors),
        Task::Help => help(&rt, &errors),
        Task::Version => say(&rt, &errors, &VERSION),
        Task::Unknown => usage(&errors),
    }
}
