// Eight octets of a text as one number, a word, and which of them are not characters that stand for themselves.
#![tactic(auto)]

ghost use Rattle.std.specs.Prelude.{◌≡◌, ◌≤◌, length, take};
ghost use Rattle.words.specs.Private.Word.{word_of, word_at};
ghost use Rattle.words.specs.Private.Stops.{stop_marks};

// The first four octets as a number. Loads and sums of four become one load, and two of these become one of eight.
fn four(s: &[u8]) -> u64
    requires { 4 ≤ length s.now }
    ensures { result ≡ word_of (take 4 s.now) }
{
    s[0] as u64 + 256 * s[1] as u64 + 65536 * s[2] as u64 + 16777216 * s[3] as u64
}

// The first eight octets as a number, the first of them lowest; 0 where there are fewer.
pub fn word(s: &[u8]) -> u64
    ensures { result ≡ word_at s.now }
{
    if s.len() < 8 {
        return 0;
    }
    four(&s[0..]) + 4294967296 * four(&s[4..])
}

// The word with 128 for each octet that is no character which stands for itself, and 0 for every other; with one that is 128 or
// more, 128 for the first octet alone. In each octet a difference or a sum has its highest bit where the octet is a dot, a
// backslash, below 33 or 127, and none reaches the next octet.
pub fn stops(w: u64) -> u64
    ensures { result ≡ stop_marks w }
{
    if w & 0x8080808080808080 != 0 {
        return 128;
    }
    let dots = 0x8080808080808080 - (w ^ 0x2e2e2e2e2e2e2e2e);
    let backslashes = 0x8080808080808080 - (w ^ 0x5c5c5c5c5c5c5c5c);
    let below = 0xa0a0a0a0a0a0a0a0 - w;
    let above = w + 0x0101010101010101;
    (dots | backslashes | below | above) & 0x8080808080808080
}
