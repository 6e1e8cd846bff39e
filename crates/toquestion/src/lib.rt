// Writing a question: what no question can hold is refused, the room is measured, and then the four fields are written.
#![tactic(auto)]

ghost use Rattle.std.specs.Prelude.{◌≡◌, ◌+◌, ◌≤◌, length};
ghost use Rattle.space.specs.Octets.{overlay};
ghost use Rattle.name.specs.Answer.{answer, Fills};
ghost use Rattle.space.specs.Private.Written.{Written as Stands};
ghost use Rattle.question.specs.Fields.{field};
ghost use Rattle.question.specs.Question.{asking, size, question_octets, Askable};
ghost use Rattle.question.specs.Writing.{said, write_of};

use question::{
    APEX_TAG, LIMIT_TAG, MOST_VALUE, NAME_TAG, QuestionRefusal, WAY_TAG, Way, octet_of, way_of,
};

// Writes the field with this tag and value to d from the index at on, and tells where it ends.
fn put_field(d: &mut [u8], at: usize, tag: u8, value: &[u8]) -> usize
    requires { (at + 3 + length value.now ≤ length d.old) × (length value.now ≤ 600) }
    ensures { Stands d.old at at (field tag value.now) result result d.new }
{
    let n = value.len();
    d[at] = tag;
    d[at + 1] = (n / 256) as u8;
    d[at + 2] = (n % 256) as u8;
    space::put(d, at + 3, value);
    at + 3 + n
}

// Writes the four fields to the front of space.
fn put_fields(apex: &[u8], limit: u8, name: &[u8], way: Way, space: &mut [u8])
    requires { Askable (asking apex.now limit name.now way) × (size (asking apex.now limit name.now way) ≤ length space.old) }
    ensures { space.new
        ≡ overlay (question_octets (asking apex.now limit name.now way)) space.old }
{
    let a = put_field(space, 0, APEX_TAG, apex);
    let b = put_field(space, a, LIMIT_TAG, &[limit]);
    let c = put_field(space, b, NAME_TAG, name);
    put_field(space, c, WAY_TAG, &[octet_of(way)]);
}

// Writes what a question can hold, or 9.
fn write_fields(
    apex: &[u8],
    limit: u8,
    name: &[u8],
    way: Way,
    space: &mut [u8],
) -> Result<usize, QuestionRefusal>
    requires { Askable (asking apex.now limit name.now way) }
    ensures { Fills (answer (question_octets (asking apex.now limit name.now way)))
        space.old (said result) space.new }
{
    let n = apex.len() + name.len() + 14;
    if space.len() < n {
        return Err(QuestionRefusal::NoRoom);
    }
    put_fields(apex, limit, name, way, space);
    Ok(n)
}

// Writes a question to the front of space: 13, then 9. Limit and way are numbers, so that one which no question can hold gets its 13.
pub fn write_question(
    apex: &[u8],
    limit: u64,
    name: &[u8],
    way: u64,
    space: &mut [u8],
) -> Result<usize, QuestionRefusal>
    ensures { Fills (write_of apex.now limit name.now way) space.old (said result) space.new }
{
    if MOST_VALUE < apex.len() {
        return Err(QuestionRefusal::NoQuestion);
    }
    if 255 < limit {
        return Err(QuestionRefusal::NoQuestion);
    }
    if MOST_VALUE < name.len() {
        return Err(QuestionRefusal::NoQuestion);
    }
    let way = way_of(way).ok_or(QuestionRefusal::NoQuestion)?;
    write_fields(apex, limit as u8, name, way, space)
}
