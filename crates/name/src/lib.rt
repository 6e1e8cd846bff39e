// Wire-format names: the type of a checked name, reading, checking and folding.
#![tactic(auto)]

pub mod starts;

ghost use Rattle.std.specs.Prelude.{◌≡◌, ◌≤◌, length};
ghost use Rattle.name.specs.Wire.{reading_of};
ghost use Rattle.name.specs.Answer.{said, Fills};
ghost use Rattle.name.specs.Fold.{fold_of};
ghost use Rattle.name.specs.Starts.{starts_of};
ghost use Rattle.name.specs.Check.{Checks, name_of, in_array};

use crate::starts::mark;

// Why octets are no name, with the place (the index of an octet) that shows it.
#[derive(Clone, Copy)]
pub enum Fault {
    CutShort(usize),
    LeftOver(usize),
    BadLength(usize),
    TooLong(usize),
}

// Why an operation refuses. specs/Answer.antt has the papers' number of each, 1 to 12; 8 is reserved, so that none has it.
#[derive(Clone, Copy)]
pub enum Refusal {
    BadLimit,
    BadApex(Fault),
    ApexTooLong,
    BadName(Fault),
    NameTooLong,
    NotUnderApex,
    NoFullLabel,
    NoRoom,
    NotAKey(usize),
    BadSecondName(Fault),
    NotInAlphabet,
}

// A checked name: its wire octets are the first len of octets, its labels' length octets stand at the first places, as many as there are
// labels, from the left, and all else is 0. In the name beside a refusal len and labels are 0.
#[derive(Clone, Copy)]
pub struct Name {
    pub octets: [u8; Name::MAX_LEN],
    pub len: usize,
    pub labels: usize,
    pub places: [u8; Name::MAX_LABELS],
}

// The answer of a check, and the checked name.
#[derive(Clone, Copy)]
pub struct Checked {
    pub outcome: Result<usize, Refusal>,
    pub name: Name,
}

impl Name {
    // The most octets of a label.
    pub const MAX_LABEL: usize = 63;

    // The most labels of a name.
    pub const MAX_LABELS: usize = 127;

    // The most octets of a name.
    pub const MAX_LEN: usize = 255;

    // The checked name with these wire octets, whose labels are so many and begin at these places.
    fn holding(octets: &[u8], labels: usize, places: [u8; Name::MAX_LABELS]) -> Name
        requires octets_bound { length octets.now ≤ Name.MAX_LEN }
        requires labels_value { (labels ≡ length (starts_of octets.now)) × (places ≡ in_array 127 (starts_of octets.now)) }
        ensures { result ≡ name_of octets.now }
    {
        let mut held = [0u8; Name::MAX_LEN];
        space::put(&mut held, 0, octets);
        Name {
            octets: held,
            len: octets.len(),
            labels,
            places,
        }
    }

    // The checked name of these octets, or why they are no name.
    pub fn check(octets: &[u8]) -> Checked
        ensures { Checks octets.now result }
    {
        let mut places = [0u8; Name::MAX_LABELS];
        match mark(octets, &mut places) {
            Ok(n) => Checked {
                outcome: Ok(octets.len()),
                name: Name::holding(octets, n, places),
            },
            Err(fault) => Checked {
                outcome: Err(Refusal::BadName(fault)),
                name: Name::holding(b"", 0, [0u8; Name::MAX_LABELS]),
            },
        }
    }
}

// Whether octets are one whole name, and if not, why. The places that the walk notes are of no use here, and the compiler leaves them out.
pub fn read(octets: &[u8]) -> Result<(), Fault>
    ensures { result ≡ reading_of octets.now }
{
    let mut places = [0u8; Name::MAX_LABELS];
    mark(octets, &mut places)?;
    Ok(())
}

// Writes the folded name to the front of space: 4, then 9.
pub fn fold(name: &[u8], space: &mut [u8]) -> Result<usize, Refusal>
    ensures { Fills (fold_of name.now) space.old (said result) space.new }
{
    read(name).map_err(Refusal::BadName)?;
    if space.len() < name.len() {
        return Err(Refusal::NoRoom);
    }
    space::put_folded(space, 0, name, 0, name.len());
    Ok(name.len())
}
