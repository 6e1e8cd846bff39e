// The characters of texts, and how many an octet is written with.
ghost use Rattle.std.specs.Prelude.{◌≡◌, length};
ghost use Rattle.space.specs.Fold.{lower_of};
ghost use Rattle.text.specs.Characters.{printable, digit, special};
ghost use Rattle.text.specs.WriteText.{characters_of};

pub fn is_printable(c: u8) -> bool
    ensures { result ≡ printable c }
{
    c.is_ascii_graphic()
}

pub fn is_digit(c: u8) -> bool
    ensures { result ≡ digit c }
{
    c.is_ascii_digit()
}

// Whether a character is written behind a backslash.
pub fn is_special(c: u8) -> bool
    ensures { result ≡ special c }
{
    (c == b'.')
        | (c == b'\\')
        | (c == b'"')
        | (c == b';')
        | (c == b'(')
        | (c == b')')
        | (c == b'@')
        | (c == b'$')
}

// How many characters an octet is written with. No letter is special, so this is the same before and after folding.
pub fn width(o: u8) -> u8
    ensures { result ≡ length (characters_of (lower_of o)) }
{
    if !is_printable(o) {
        return 4;
    }
    if is_special(o) {
        return 2;
    }
    1
}
