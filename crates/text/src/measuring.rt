// Measuring a name's text: the name is read once, and its octets are counted that are not written alone.
ghost use Rattle.std.specs.Prelude.{◌≡◌, map, ◌+◌, ◌≤◌, length, Ok, Err, MatchResult};
ghost use Rattle.name.specs.Wire.{reading_of};
ghost use Rattle.name.specs.Labels.{labels_of};
ghost use Rattle.space.specs.Fold.{folded};
ghost use Rattle.order.specs.Order.{folded_labels};
ghost use Rattle.text.specs.WriteText.{label_text, text_of};
ghost use Rattle.text.specs.Private.Measured.{measured_of};

use crate::character::{is_printable, is_special, width};
use name::{Fault, Name};

// How many characters more than one each the length octets of one whole name would be written with as octets of a label; where the octets
// are no name, why.
fn read_lengths(octets: &[u8]) -> Result<usize, Fault>
    ensures { MatchResult result
        (λ more. (reading_of octets.now ≡ Ok tt)
        × (more + length (labels_of octets.now) ≡ length (label_text (map length (labels_of octets.now)))))
        (λ fault. reading_of octets.now ≡ Err fault) }
{
    let mut more = 0;
    let mut p = 0;
    while p < octets.len() {
        let o = octets[p];
        let q = p + 1;
        if o == 0 {
            if q < octets.len() {
                return Err(Fault::LeftOver(q));
            }
            return Ok(more);
        }
        let n = o as usize;
        if n > Name::MAX_LABEL {
            return Err(Fault::BadLength(p));
        }
        let e = q + n;
        if e >= Name::MAX_LEN {
            return Err(Fault::TooLong(p));
        }
        more += width(o) as usize - 1;
        p = e;
    }
    Err(Fault::CutShort(octets.len()))
}

// How many characters more than one each octets would be written with as octets of a label.
fn extra(octets: &[u8]) -> usize
    requires { length octets.now ≤ 255 }
    ensures { result + length octets.now ≡ length (label_text (folded octets.now)) }
{
    let mut specials = 0u8;
    let mut numbered = 0u8;
    for &o in octets {
        if is_special(o) {
            specials += 1;
        }
        if !is_printable(o) {
            numbered += 1;
        }
    }
    specials as usize + 3 * (numbered as usize)
}

// The length of the text of a name, from what measuring finds of its length octets. These and the last octet are no label's.
fn text_length(name: &[u8], lengths: usize) -> usize
    requires { (reading_of name.now ≡ Ok tt)
        × (lengths + length (labels_of name.now) ≡ length (label_text (map length (labels_of name.now)))) }
    ensures { result ≡ length (text_of (folded_labels name.now)) }
{
    if name.len() == 1 {
        return 1;
    }
    name.len() + extra(name) - 4 - lengths
}

// How many characters the text of a name has; where the octets are no name, why.
pub fn measure(name: &[u8]) -> Result<usize, Fault>
    ensures { result ≡ measured_of (reading_of name.now) (length (text_of (folded_labels name.now))) }
{
    let lengths = read_lengths(name)?;
    Ok(text_length(name, lengths))
}
