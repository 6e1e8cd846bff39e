// A reader of names as people type them: it holds the text that it reads, and its own place. The functions over it are thin;
// `fromtext::read_text`, which has the text and the place as plain parameters, does the work.
#![tactic(auto)]

ghost use Rattle.std.specs.Prelude.{◌≡◌};
ghost use Rattle.text.specs.Reads.{Reads};
ghost use Rattle.reader.specs.Moves.{Moves};

use text::{TextRead, TextRefusal};

#[derive(Clone, Copy)]
pub struct Reader<'a> {
    pub text: &'a [u8],
    pub at: usize,
}

// A reader of this text, at its start.
pub fn new<'a>(text: &'a [u8]) -> Reader<'a>
    ensures { (result.text ≡ text.entry) × (result.at ≡ 0) }
{
    Reader { text, at: 0 }
}

// The same reader at another place.
pub fn moved<'a>(r: Reader<'a>, at: usize) -> Reader<'a>
    ensures { (result.text ≡ r.entry.text) × (result.at ≡ at) }
{
    Reader { text: r.text, at }
}

// Reads the text from the reader's place on, and writes the name that it spells to the front of space: 14, then 9. An answer moves the
// reader to the text's end, and a refusal leaves it where it is.
pub fn read<'s, 'a>(r: &'s mut Reader<'a>, space: &mut [u8]) -> Result<usize, TextRefusal>
    ensures { Moves r.old space.old result r.new space.new }
{
    let read = fromtext::read_text(r.text, r.at, space);
    r.at = read.at;
    read.outcome
}

// The same on a plain text and place: whoever calls this needs no reader.
pub fn read_at(text: &[u8], at: usize, space: &mut [u8]) -> TextRead
    ensures { Reads text.now at space.old result space.new }
{
    let mut r = moved(new(text), at);
    let outcome = read(&mut r, space);
    TextRead { outcome, at: r.at }
}
