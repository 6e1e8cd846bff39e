// The reader of sorting keys: one pass measures the name that has a key, and a second one writes the name from its end.
#![tactic(auto)]

ghost use Rattle.std.specs.Prelude.{◌≡◌, ◌+◌, ◌≤◌, ◌<◌, length, drop};
ghost use Rattle.name.specs.Answer.{Fills, said};
ghost use Rattle.space.specs.Octets.{overlay};
ghost use Rattle.key.specs.ReadKey.{read_key_of};
ghost use Rattle.fromkey.specs.Private.KeyLabels.{name_in};
ghost use Rattle.fromkey.specs.Private.Measure.{is_escape, LabelRead, Measures};
ghost use Rattle.fromkey.specs.Private.PutName.{LabelAt, Layout, PutLabel};

use name::{Name, Refusal};

// Whether 01 or 02 stands at the place p.
fn completes_escape(key: &[u8], p: usize) -> bool
    ensures { result ≡ is_escape (drop p key.now) }
{
    if key.len() <= p {
        return false;
    }
    let o = key[p];
    if o == 0 {
        return false;
    }
    o <= 2
}

// Measures the label whose code begins at the place from, where the name has left octets free.
fn measure_label(key: &[u8], from: usize, left: usize) -> Result<(usize, usize), usize>
    requires { from < length key.now }
    ensures { LabelRead key.now from left result }
{
    let most = Name::MAX_LABEL.min(left.saturating_sub(1));
    let mut p = from;
    let mut size = 0;
    while p < key.len() {
        let o = key[p];
        if o == 0 {
            if size == 0 {
                return Err(p);
            }
            return Ok((size, p + 1));
        }
        if most <= size {
            return Err(p);
        }
        if o.is_ascii_uppercase() {
            return Err(p);
        }
        p += 1;
        size += 1;
        if o == 1 {
            if !completes_escape(key, p) {
                return Err(p);
            }
            p += 1;
        }
    }
    Err(key.len())
}

// Measures the name that has this key, and notes how many octets its labels have, the rightmost first.
fn measure(key: &[u8], sizes: &mut [u8; Name::MAX_LABELS]) -> Result<usize, usize>
    requires { length sizes.old ≡ 127 }
    ensures { Measures key.now sizes.new result }
{
    let mut left = Name::MAX_LEN - 1;
    let mut p = 0;
    let mut k = 0;
    while p < key.len() {
        let (size, next) = measure_label(key, p, left)?;
        sizes[k] = size as u8;
        k += 1;
        left -= size + 1;
        p = next;
    }
    Ok(Name::MAX_LEN - left)
}

// Writes the n octets of the label whose code begins at the place from to d from index at on, and tells the place of its 00.
fn put_label(d: &mut [u8], at: usize, n: usize, key: &[u8], from: usize) -> usize
    requires n_in_bounds { at + n ≤ length d.old }
    requires label_at { LabelAt key.now from n }
    ensures { PutLabel key.now from n at d.old d.new result }
{
    let mut p = from;
    for i in 0..n {
        let o = key[p];
        let j = at + i;
        p += 1;
        if o == 1 {
            d[j] = key[p] - 1;
            p += 1;
        } else {
            d[j] = o;
        }
    }
    p
}

// Writes the name that has this key, n octets with labels of these sizes, to the front of d, the last label first.
fn put_name(d: &mut [u8], n: usize, key: &[u8], sizes: &[u8; Name::MAX_LABELS])
    requires n_in_bounds { n ≤ length d.old }
    requires layout { Layout key.now sizes.now n }
    ensures { d.new ≡ overlay (name_in key.now) d.old }
{
    let mut end = n - 1;
    d[end] = 0;
    let mut p = 0;
    let mut k = 0;
    while p < key.len() {
        let octet = sizes[k];
        let size = octet as usize;
        let at = end - size;
        p = put_label(d, at, size, key, p) + 1;
        end = at - 1;
        d[end] = octet;
        k += 1;
    }
}

// Writes the name that has this sorting key to the front of space: 10, then 9.
pub fn read_key(key: &[u8], space: &mut [u8]) -> Result<usize, Refusal>
    ensures { Fills (read_key_of key.now) space.old (said result) space.new }
{
    let mut sizes = [0u8; Name::MAX_LABELS];
    let n = measure(key, &mut sizes).map_err(Refusal::NotAKey)?;
    if space.len() < n {
        return Err(Refusal::NoRoom);
    }
    put_name(space, n, key, &sizes);
    Ok(n)
}
