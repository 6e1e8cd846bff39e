// Reading a text by words: runs of characters that stand for themselves are copied eight at a time.
ghost use Rattle.std.specs.Prelude.{◌≡◌, ◌+◌, ◌≤◌, ◌<◌, min, length, take, drop};
ghost use Rattle.space.specs.Private.Put.{put};
ghost use Rattle.fromtext.specs.Private.Parse.{EscapeEnds, Reading};

use crate::WIDE;
use text::character::{is_digit, is_printable};
use words::{stops, word};

// Where reading has come to: the place p of the text, and the open label, of size octets, behind start octets of the name.
#[derive(Clone, Copy)]
pub(crate) struct Reached {
    pub start: usize,
    pub size: usize,
    pub p: usize,
}

// The place p, where the label's first octet has index open, and its next octet index at.
fn stop_at(open: usize, at: usize, p: usize) -> Reached
    requires { (1 ≤ «open») × («open» ≤ at) }
    ensures { (result.start + 1 ≡ «open») × («open» + result.size ≡ at) × (result.p ≡ p) }
{
    Reached {
        start: open - 1,
        size: at - open,
        p,
    }
}

// The octet of the three digits at the place p; 256 or more where they are none, or no octet has this number.
fn three_digits(text: &[u8], p: usize) -> usize
    requires { p + 3 ≤ length text.now }
    ensures { result < 256 → EscapeEnds text.now p result (p + 3) }
{
    let a = text[p];
    let b = text[p + 1];
    let c = text[p + 2];
    if is_digit(a) & is_digit(b) & is_digit(c) {
        // three times '0', taken off as one
        return 100 * a as usize + 10 * b as usize + c as usize - 5328;
    }
    256
}

// Copies eight characters of the text from the place p on to octets from index at on.
fn put_word(octets: &mut [u8; WIDE], at: usize, text: &[u8], p: usize)
    requires { (length octets.old ≡ 263) × (at + 8 ≤ 263) × (p + 8 ≤ length text.now) }
    ensures { octets.new ≡ put octets.old at (take 8 (drop p text.now)) }
{
    for k in 0..8 {
        octets[at + k] = text[p + k];
    }
}

// The first index that an octet of a label cannot have, where the label's first octet has index open.
fn label_end(open: usize) -> usize
    ensures { result ≡ min («open» + 63) 254 }
{
    open.min(191) + 63
}

// Reads a text word by word, and stops where fewer than eight characters are left, or where what comes next is not common. A dot behind
// an escape is read apart, so that what comes next does not wait for the marks.
pub(crate) fn read_words(text: &[u8], octets: &mut [u8; WIDE]) -> Reached
    requires { Reading text.now octets.old 0 0 0 }
    ensures { Reading text.now octets.new result.start result.size result.p }
{
    if text.len() < 8 {
        return stop_at(1, 1, 0);
    }
    let last = text.len() - 8;
    let mut open = 1;
    let mut at = 1;
    let mut full = label_end(1);
    let mut p = 0;
    while p <= last {
        let w = word(&text[p..]);
        if w % 256 == 92 {
            if full <= at {
                return stop_at(open, at, p);
            }
            let octet = three_digits(text, p + 1);
            if octet < 256 {
                octets[at] = octet as u8;
                at += 1;
                p += 4;
            } else {
                let c = text[p + 1];
                if is_digit(c) {
                    return stop_at(open, at, p);
                }
                if !is_printable(c) {
                    return stop_at(open, at, p);
                }
                octets[at] = c;
                at += 1;
                p += 2;
            }
        } else {
            let m = stops(w);
            put_word(octets, at, text, p);
            if m == 0 {
                if full < at + 8 {
                    return stop_at(open, at, p);
                }
                at += 8;
                p += 8;
            } else {
                let k = (u64::trailing_zeros(m) / 8) as usize;
                let end = at + k;
                if full < end {
                    return stop_at(open, at, p);
                }
                if text[p + k] == b'.' {
                    if k == 0 {
                        if at == open {
                            return stop_at(open, at, p);
                        }
                        octets[open - 1] = (at - open) as u8;
                        at += 1;
                        open = at;
                        full = label_end(at);
                        p += 1;
                    } else {
                        octets[open - 1] = (end - open) as u8;
                        at = end + 1;
                        open = at;
                        full = label_end(at);
                        p += k + 1;
                    }
                } else {
                    if k == 0 {
                        return stop_at(open, at, p);
                    }
                    at = end;
                    p += k;
                }
            }
        }
    }
    stop_at(open, at, p)
}
