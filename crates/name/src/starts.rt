// Where the labels of a name begin: the one walk that notes the places of their length octets, for whoever needs them.
ghost use Rattle.name.specs.Starts.{label_places_of};
ghost use Rattle.name.specs.Answer.{said, Fills};
ghost use Rattle.name.specs.Private.Marks.{Marks};

use crate::{Fault, Name, Refusal};

// Reads octets as one whole name, and notes the places where its labels begin in the first of the places, from the left; beside a fault,
// those of the labels before it.
pub fn mark(octets: &[u8], places: &mut [u8; Name::MAX_LABELS]) -> Result<usize, Fault>
    ensures { Marks octets.now places.old result places.new }
{
    let mut p = 0;
    let mut n = 0;
    while p < octets.len() {
        let o = octets[p] as usize;
        let q = p + 1;
        if o == 0 {
            if q < octets.len() {
                return Err(Fault::LeftOver(q));
            }
            return Ok(n);
        }
        if o > Name::MAX_LABEL {
            return Err(Fault::BadLength(p));
        }
        let e = q + o;
        if e >= Name::MAX_LEN {
            return Err(Fault::TooLong(p));
        }
        places[n] = p as u8;
        n += 1;
        p = e;
    }
    Err(Fault::CutShort(octets.len()))
}

// Writes the places of the length octets of a name's labels, from the left, to the front of places: 4, then 9.
pub fn label_places(name: &[u8], places: &mut [u8]) -> Result<usize, Refusal>
    ensures { Fills (label_places_of name.now) places.old (said result) places.new }
{
    let mut noted = [0u8; Name::MAX_LABELS];
    let n = mark(name, &mut noted).map_err(Refusal::BadName)?;
    if places.len() < n {
        return Err(Refusal::NoRoom);
    }
    space::put(places, 0, &noted[..n]);
    Ok(n)
}
