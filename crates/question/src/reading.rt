// Reading the question that begins at an index of the input: four fields in their order, each by a function of its own that reads on.
ghost use Rattle.std.specs.Prelude.{◌≡◌, ◌+◌, ◌≤◌, length};
ghost use Rattle.question.specs.Private.Asked.{size_at, field_at, after_apex, after_limit, after_name, asked_at};

use crate::{APEX_TAG, LIMIT_TAG, MOST_VALUE, NAME_TAG, NotAsked, Part, Parts, WAY_TAG, way_of};

// The size that the two octets from the index at on say, from least to most. An octet that no such size has there is wrong, and a beginning
// of the two is cut off.
fn read_size(input: &[u8], at: usize, least: usize, most: usize) -> Result<usize, NotAsked>
    ensures { result ≡ size_at input.now at least most }
{
    if input.len() <= at {
        return Err(NotAsked::Cut);
    }
    let high = 256 * (input[at] as usize);
    if most < high {
        return Err(NotAsked::Wrong);
    }
    if input.len() - at < 2 {
        return Err(NotAsked::Cut);
    }
    let n = high + input[at + 1] as usize;
    if n < least {
        return Err(NotAsked::Wrong);
    }
    if most < n {
        return Err(NotAsked::Wrong);
    }
    Ok(n)
}

// How many octets the value of the field with this tag at the index at has, from least to most. It stands behind the tag and the two octets
// of its length.
fn read_field(
    input: &[u8],
    at: usize,
    tag: u8,
    least: usize,
    most: usize,
) -> Result<usize, NotAsked>
    ensures { result ≡ field_at input.now at tag least most }
{
    if input.len() <= at {
        return Err(NotAsked::Cut);
    }
    if input[at] != tag {
        return Err(NotAsked::Wrong);
    }
    let n = read_size(input, at + 1, least, most)?;
    if input.len() - at - 3 < n {
        return Err(NotAsked::Cut);
    }
    Ok(n)
}

// The rest of a question that begins at the index at, behind a name of so many octets: the way.
fn read_way(input: &[u8], at: usize, apex: usize, limit: u8, name: usize) -> Result<Parts, NotAsked>
    requires { at + 10 + apex + name ≤ length input.now }
    ensures { result ≡ after_name input.now at apex limit name }
{
    let after = at + 10 + apex + name;
    read_field(input, after, WAY_TAG, 1, 1)?;
    let way = way_of(input[after + 3] as u64).ok_or(NotAsked::Wrong)?;
    Ok(Parts {
        apex: Part {
            start: at + 3,
            len: apex,
        },
        limit,
        name: Part {
            start: at + 10 + apex,
            len: name,
        },
        way,
        next: after + 4,
    })
}

// The rest behind the limit: the name and what comes after it.
fn read_name(input: &[u8], at: usize, apex: usize, limit: u8) -> Result<Parts, NotAsked>
    requires { at + 7 + apex ≤ length input.now }
    ensures { result ≡ after_limit input.now at apex limit }
{
    let name = read_field(input, at + 7 + apex, NAME_TAG, 0, MOST_VALUE)?;
    read_way(input, at, apex, limit, name)
}

// The rest behind an apex of so many octets: the limit and what comes after it.
fn read_limit(input: &[u8], at: usize, apex: usize) -> Result<Parts, NotAsked>
    requires { at + 3 + apex ≤ length input.now }
    ensures { result ≡ after_apex input.now at apex }
{
    read_field(input, at + 3 + apex, LIMIT_TAG, 1, 1)?;
    read_name(input, at, apex, input[at + 6 + apex])
}

// The question that begins at the index at.
pub fn read_question(input: &[u8], at: usize) -> Result<Parts, NotAsked>
    ensures { result ≡ asked_at input.now at }
{
    if input.len() <= at {
        return Err(NotAsked::End);
    }
    let apex = read_field(input, at, APEX_TAG, 0, MOST_VALUE)?;
    read_limit(input, at, apex)
}
