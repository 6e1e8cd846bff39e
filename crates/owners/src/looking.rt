// One look at an owner.
ghost use Rattle.std.specs.Prelude.{◌≡◌};
ghost use Rattle.name.specs.Private.Marks.{Starts};
ghost use Rattle.order.specs.Compare.{said};
ghost use Rattle.owners.specs.Private.Looks.{is_positive, told_by, look_from};

use crate::Look;
use name::{Name, Refusal};

fn positive(number: i16) -> bool
    ensures { result ≡ is_positive number }
{
    0 < number
}

// What the comparison of an owner with a query tells.
fn told(found: Result<i16, Refusal>) -> Look
    ensures { result ≡ told_by (said found) }
{
    match found {
        Err(_) => Look::Broken,
        Ok(number) => {
            if positive(number) {
                return Look::After;
            }
            Look::NotAfter
        }
    }
}

// What an owner tells of a query; where the query is no name, as of an owner that is none.
pub fn look(owner: &[u8], query: &[u8]) -> Look
    ensures { result ≡ look_from query.now owner.now }
{
    told(order::compare(owner, query))
}

// The same, where the labels of the query were marked before: it has n of them, which begin at these places.
pub fn look_marked(owner: &[u8], query: &[u8], places: &[u8; Name::MAX_LABELS], n: usize) -> Look
    requires { Starts query.now places.now n }
    ensures { result ≡ look_from query.now owner.now }
{
    told(order::compare_marked(owner, query, places, n))
}
