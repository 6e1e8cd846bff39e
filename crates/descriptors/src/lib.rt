// Reading standard input and writing standard output where a call may be interrupted, or the descriptor not ready.
//
// A call that a signal interrupts (EINTR) is made again at once. One on a descriptor that does not block and is not ready (EAGAIN) is made
// again after a millisecond, since std has no call that waits for a descriptor: long beside a call, so that waiting takes hardly any of
// a processor's time, and short beside what a person or a network waits. Any other failure is the caller's to tell, and comes back to it.
// The loops have a number of turns that no run uses up, since a proved loop has to end.
#![tactic(auto)]

ghost use Rattle.std.specs.Prelude.{◌≡◌, ◌≤◌, IfOk, IsNone, length};

use std::io::{ErrorKind, Read};
use std::rt::Clock;
use std::time::Duration;
use std::{io, thread};

// What came of a write: so many octets were written, and, where that is not all of them, why the write failed.
#[derive(Clone, Copy)]
pub struct Sent {
    pub octets: usize,
    pub failure: Option<io::Error>,
}

// Waits for a millisecond.
fn pause<R: Clock>(rt: &R) {
    thread::sleep(rt, Duration::from_millis(1));
}

// Whether a call that has just failed for this reason is to be made again.
fn again<R: Clock>(rt: &R, why: &io::Error) -> bool {
    let kind = why.kind();
    if kind == ErrorKind::WouldBlock {
        pause(rt);
        return true;
    }
    kind == ErrorKind::Interrupted
}

// Reads what has come from standard input, as far as there is room.
pub fn receive<R: Input + Clock>(rt: &R, space: &mut [u8]) -> io::Result<usize>
    ensures { IfOk result (λ n. n ≤ length space.old) }
{
    let mut why = io::Error::from(ErrorKind::Interrupted);
    for _ in 0..u64::MAX {
        match rt.reader().read(space) {
            Ok(n) => return Ok(n),
            Err(e) => why = e,
        }
        if !again(rt, &why) {
            return Err(why);
        }
    }
    Err(why)
}

// Writes the octets to standard output and tells how many were written: fewer only where a write failed.
pub fn send<R: Print + Clock>(rt: &R, octets: &[u8]) -> Sent
    ensures within { result.octets ≤ length octets.now }
    ensures whole { IsNone result.failure → result.octets ≡ length octets.now }
{
    let mut done = 0;
    let mut why = io::Error::from(ErrorKind::WriteZero);
    for _ in 0..u64::MAX {
        if done == octets.len() {
            return Sent {
                octets: done,
                failure: None,
            };
        }
        match rt.write_some(&octets[done..]) {
            Ok(0) => pause(rt),
            Ok(n) => done += n,
            Err(e) => {
                if !again(rt, &e) {
                    return Sent {
                        octets: done,
                        failure: Some(e),
                    };
                }
                why = e;
            }
        }
    }
    let failure = if done < octets.len() { Some(why) } else { None };
    Sent {
        octets: done,
        failure,
    }
}
