// The writer of type bitmaps. It writes from the last window to the first, since the last type of a window tells how long it is.
#![tactic(auto)]

ghost use Rattle.std.specs.Prelude.{◌≡◌, ◌≤◌, length};
ghost use Rattle.space.specs.Octets.{overlay};
ghost use Rattle.name.specs.Answer.{Fills};
ghost use Rattle.types.specs.Sets.{IsSet};
ghost use Rattle.types.specs.Bitmap.{bitmap_of};
ghost use Rattle.types.specs.Answers.{said, write_types_of};
ghost use Rattle.totypes.specs.Private.Surveyed.{window_size, Surveys};
ghost use Rattle.totypes.specs.Private.Marked.{Marking, Marks};

use types::TypesRefusal;

// How many octets a window that ends with this type has, with its number and its count.
fn window_size(t: u16) -> usize
    ensures { result ≡ window_size t }
{
    3 + (t % 256 / 8) as usize
}

// Whether the types of a list rise, and how many octets their bitmap has.
fn survey(types: &[u16]) -> Result<usize, usize>
    ensures { Surveys types.now result }
{
    if types.len() == 0 {
        return Ok(0);
    }
    let mut size = 0;
    let mut last = types[0];
    for i in 1..types.len() {
        let t = types[i];
        if t <= last {
            return Err(i);
        }
        if t / 256 != last / 256 {
            size += window_size(last);
        }
        last = t;
    }
    Ok(size + window_size(last))
}

// Sets the bits of the types of the window w, from the one before index end back to the first, in octets that
// begin at index start. Tells the index of the first.
fn mark(types: &[u16], end: usize, w: u16, space: &mut [u8], start: usize) -> usize
    requires { Marking types.now end w space.old start }
    ensures { Marks types.now end w space.old start result space.new }
{
    for i in (0..end).rev() {
        let t = types[i];
        if t / 256 != w {
            return i + 1;
        }
        space[start + (t % 256 / 8) as usize] += 128u8 >> (t % 8);
    }
    0
}

// Writes the bitmap of a set, which has size octets, to the front of a space that has room for it.
fn put_windows(types: &[u16], space: &mut [u8], size: usize)
    requires { IsSet types.now × (size ≡ length (bitmap_of types.now)) × (size ≤ length space.old) }
    ensures { space.new ≡ overlay (bitmap_of types.now) space.old }
{
    let mut i = types.len();
    let mut end = size;
    while 0 < i {
        let last = types[i - 1];
        let w = last / 256;
        let n = last % 256 / 8 + 1;
        let start = end - n as usize;
        space::fill(space, start, n as usize, 0);
        i = mark(types, i, w, space, start);
        space[start - 1] = n as u8;
        space[start - 2] = w as u8;
        end = start - 2;
    }
}

// Writes the bitmap of the types of a list to the front of space: 15, then 9.
pub fn write_types(types: &[u16], space: &mut [u8]) -> Result<usize, TypesRefusal>
    ensures { Fills (write_types_of types.now) space.old (said result) space.new }
{
    let size = survey(types).map_err(TypesRefusal::NoSet)?;
    if space.len() < size {
        return Err(TypesRefusal::NoRoom);
    }
    put_windows(types, space, size);
    Ok(size)
}
