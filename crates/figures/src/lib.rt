// A fault and a refusal as numbers: what an exported function and an answer of a batch hand on.
#![tactic(auto)]

ghost use Rattle.std.specs.Prelude.{◌≡◌};
ghost use Rattle.name.specs.Answer.{fault_reason, fault_place};
ghost use Rattle.figures.specs.Private.Figures.{Tells};

use name::{Fault, Refusal};

// The number of a refusal and, of one that holds a fault or a place, the reason and the place; 0 where it has none.
#[derive(Clone, Copy)]
pub struct Figures {
    pub number: u8,
    pub reason: u8,
    pub value: usize,
}

// The reason of a fault: 1 cut short, 2 left over, 3 bad length, 4 too long.
pub fn reason(fault: Fault) -> u8
    ensures { result ≡ fault_reason fault }
{
    match fault {
        Fault::CutShort(_) => 1,
        Fault::LeftOver(_) => 2,
        Fault::BadLength(_) => 3,
        Fault::TooLong(_) => 4,
    }
}

// The place of a fault.
pub fn place(fault: Fault) -> usize
    ensures { result ≡ fault_place fault }
{
    match fault {
        Fault::CutShort(place) => place,
        Fault::LeftOver(place) => place,
        Fault::BadLength(place) => place,
        Fault::TooLong(place) => place,
    }
}

// A refusal that holds nothing.
fn bare(number: u8) -> Figures
    ensures { (result.number ≡ number) × (result.reason ≡ 0) × (result.value ≡ 0) }
{
    Figures {
        number,
        reason: 0,
        value: 0,
    }
}

// A refusal that holds a fault.
fn faulty(number: u8, fault: Fault) -> Figures
    ensures { (result.number ≡ number) × (result.reason ≡ fault_reason fault) × (result.value ≡ fault_place fault) }
{
    Figures {
        number,
        reason: reason(fault),
        value: place(fault),
    }
}

// A refusal's number, reason and value.
pub fn tell(why: Refusal) -> Figures
    ensures { Tells why result }
{
    match why {
        Refusal::BadLimit => bare(1),
        Refusal::BadApex(fault) => faulty(2, fault),
        Refusal::ApexTooLong => bare(3),
        Refusal::BadName(fault) => faulty(4, fault),
        Refusal::NameTooLong => bare(5),
        Refusal::NotUnderApex => bare(6),
        Refusal::NoFullLabel => bare(7),
        Refusal::NoRoom => bare(9),
        Refusal::NotAKey(place) => Figures {
            number: 10,
            reason: 0,
            value: place,
        },
        Refusal::BadSecondName(fault) => faulty(11, fault),
        Refusal::NotInAlphabet => bare(12),
    }
}
