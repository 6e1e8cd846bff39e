// The two alphabets of zones: which octets labels above the apex may have, and the next and the previous one of an octet.
#![tactic(auto)]

ghost use Rattle.std.specs.Prelude.{◌≡◌, suc, ◌<◌, get_or};
ghost use Rattle.space.specs.Fold.{lower_of};
ghost use Rattle.order.specs.Place.{full};
ghost use Rattle.zone.specs.Alphabet.{from, below};
ghost use Rattle.zone.specs.Steps.{least, greatest};
ghost use Rattle.alphabet.specs.Alphabets.{ldh, among, allowed, or_this};

#[derive(Clone, Copy)]
pub enum Alphabet {
    // Every octet but the upper-case letters.
    Full,
    // Lower-case letters, digits and the hyphen.
    Ldh,
}

// The octets of the small alphabet, from least to greatest.
const LDH: [u8; 37] = *b"-0123456789abcdefghijklmnopqrstuvwxyz";

// The octet of the small alphabet at an index.
fn entry(index: usize) -> u8
    requires { index < 37 }
    ensures { result ≡ get_or ldh index 0 }
{
    LDH[index]
}

// One more, but from - to 0 and from 9 to a.
fn next_ldh(octet: u8) -> u8
    ensures { result ≡ or_this (from (allowed Alphabet.Ldh) (suc octet)) octet }
{
    if octet < b'-' {
        return b'-';
    }
    if octet < b'0' {
        return b'0';
    }
    if octet < b'9' {
        return octet + 1;
    }
    if octet < b'a' {
        return b'a';
    }
    if octet < b'z' {
        return octet + 1;
    }
    octet
}

// One less, but from a to 9 and from 0 to -.
fn previous_ldh(octet: u8) -> u8
    ensures { result ≡ or_this (below (allowed Alphabet.Ldh) octet) octet }
{
    if b'z' < octet {
        return b'z';
    }
    if b'a' < octet {
        return octet - 1;
    }
    if b'9' < octet {
        return b'9';
    }
    if b'0' < octet {
        return octet - 1;
    }
    if b'-' < octet {
        return b'-';
    }
    octet
}

// By compares: what is below the hyphen, as nearly every length octet is, is told first.
fn includes_ldh(octet: u8) -> bool
    ensures { result ≡ among octet ldh }
{
    if octet < b'-' {
        return false;
    }
    if octet < b'0' {
        return octet == b'-';
    }
    if octet < b'a' {
        return octet <= b'9';
    }
    octet <= b'z'
}

// One more, but past the upper-case letters.
fn next_full(octet: u8) -> u8
    ensures { result ≡ or_this (from full (suc octet)) octet }
{
    if octet < b'@' {
        return octet + 1;
    }
    if octet <= b'Z' {
        return b'[';
    }
    if octet < 255 {
        return octet + 1;
    }
    octet
}

// One less, but past the upper-case letters.
pub fn previous_full(octet: u8) -> u8
    ensures { result ≡ or_this (below full octet) octet }
{
    if b'[' < octet {
        return octet - 1;
    }
    if b'@' < octet {
        return b'@';
    }
    if 0 < octet {
        return octet - 1;
    }
    octet
}

// The least octet of an alphabet.
pub fn least(alphabet: Alphabet) -> u8
    ensures { result ≡ least (allowed alphabet) }
{
    match alphabet {
        Alphabet::Full => 0,
        Alphabet::Ldh => entry(0),
    }
}

// The greatest octet of an alphabet.
pub fn greatest(alphabet: Alphabet) -> u8
    ensures { result ≡ greatest (allowed alphabet) }
{
    match alphabet {
        Alphabet::Full => 255,
        Alphabet::Ldh => entry(36),
    }
}

// The octet of an alphabet that comes next after an octet, or the octet itself where none does.
pub fn next(alphabet: Alphabet, octet: u8) -> u8
    ensures { result ≡ or_this (from (allowed alphabet) (suc octet)) octet }
{
    match alphabet {
        Alphabet::Full => next_full(octet),
        Alphabet::Ldh => next_ldh(octet),
    }
}

// The octet of an alphabet that comes last before an octet, or the octet itself where none does.
pub fn previous(alphabet: Alphabet, octet: u8) -> u8
    ensures { result ≡ or_this (below (allowed alphabet) octet) octet }
{
    match alphabet {
        Alphabet::Full => previous_full(octet),
        Alphabet::Ldh => previous_ldh(octet),
    }
}

// Whether an octet is one of an alphabet.
pub fn includes(alphabet: Alphabet, octet: u8) -> bool
    ensures { result ≡ allowed alphabet octet }
{
    match alphabet {
        Alphabet::Full => !octet.is_ascii_uppercase(),
        Alphabet::Ldh => includes_ldh(octet),
    }
}

// Whether an octet, folded, is a letter, a digit or the hyphen. The compares are joined without a branch, so that a loop over a name's
// octets becomes vector operations.
pub fn folds_to_ldh(octet: u8) -> bool
    ensures { result ≡ allowed Alphabet.Ldh (lower_of octet) }
{
    (octet == b'-')
        | ((b'0' <= octet) & (octet <= b'9'))
        | ((b'A' <= octet) & (octet <= b'Z'))
        | ((b'a' <= octet) & (octet <= b'z'))
}
