// The third way to write, where the space has room for the widest text of the name: four octets at a time, from a table, with no test of
// the space. It writes octets that are of no use behind the characters of an octet, and the next characters over them; behind the last two
// octets of a name, what stands there is written back.
ghost use Rattle.std.specs.Prelude.{◌≡◌, ◌+◌, ◌*◌, ◌≤◌, ◌<◌, length, Ok};
ghost use Rattle.name.specs.Wire.{reading_of};
ghost use Rattle.space.specs.Octets.{overlay};
ghost use Rattle.space.specs.Fold.{lower_of};
ghost use Rattle.space.specs.Private.Put.{folded_part};
ghost use Rattle.space.specs.Private.Written.{Written};
ghost use Rattle.order.specs.Order.{folded_labels};
ghost use Rattle.text.specs.WriteText.{characters_of, label_text, text_of};
ghost use Rattle.totext.specs.Private.Table.{Lists};
ghost use Rattle.totext.specs.Private.AtOnce.{widest};

// Four octets for each octet: the characters that it is written with, and then any. The last, divided by 16, is how many characters
// there are beside the first: a digit's is 3.
const WRITTEN: [u8; 1024] = *b"\
    \\000\\001\\002\\003\\004\\005\\006\\007\\008\\009\\010\\011\\012\\013\\014\\015\
    \\016\\017\\018\\019\\020\\021\\022\\023\\024\\025\\026\\027\\028\\029\\030\\031\
    \\032!  \0\\\" \x10#  \0\\$ \x10%  \0&  \0'  \0\\( \x10\\) \x10*  \0+  \0,  \0-  \0\\. \x10/  \0\
    0  \01  \02  \03  \04  \05  \06  \07  \08  \09  \0:  \0\\; \x10<  \0=  \0>  \0?  \0\
    \\@ \x10a  \0b  \0c  \0d  \0e  \0f  \0g  \0h  \0i  \0j  \0k  \0l  \0m  \0n  \0o  \0\
    p  \0q  \0r  \0s  \0t  \0u  \0v  \0w  \0x  \0y  \0z  \0[  \0\\\\ \x10]  \0^  \0_  \0\
    `  \0a  \0b  \0c  \0d  \0e  \0f  \0g  \0h  \0i  \0j  \0k  \0l  \0m  \0n  \0o  \0\
    p  \0q  \0r  \0s  \0t  \0u  \0v  \0w  \0x  \0y  \0z  \0{  \0|  \0}  \0~  \0\\127\
    \\128\\129\\130\\131\\132\\133\\134\\135\\136\\137\\138\\139\\140\\141\\142\\143\
    \\144\\145\\146\\147\\148\\149\\150\\151\\152\\153\\154\\155\\156\\157\\158\\159\
    \\160\\161\\162\\163\\164\\165\\166\\167\\168\\169\\170\\171\\172\\173\\174\\175\
    \\176\\177\\178\\179\\180\\181\\182\\183\\184\\185\\186\\187\\188\\189\\190\\191\
    \\192\\193\\194\\195\\196\\197\\198\\199\\200\\201\\202\\203\\204\\205\\206\\207\
    \\208\\209\\210\\211\\212\\213\\214\\215\\216\\217\\218\\219\\220\\221\\222\\223\
    \\224\\225\\226\\227\\228\\229\\230\\231\\232\\233\\234\\235\\236\\237\\238\\239\
    \\240\\241\\242\\243\\244\\245\\246\\247\\248\\249\\250\\251\\252\\253\\254\\255";

// Writes the characters of an octet from index at of space on, and tells where they end. They are four octets of the table, of which
// those behind the characters are of no use.
fn put_four(space: &mut [u8], at: usize, o: u8, written: &[u8; 1024]) -> usize
    requires at_in_bounds { at + 4 ≤ length space.old }
    requires lists { Lists written.now }
    ensures { Written space.old at at (characters_of (lower_of o)) result (at + 4) space.new }
{
    let k = o as usize * 4;
    let first = written[k];
    let second = written[k + 1];
    let third = written[k + 2];
    let fourth = written[k + 3];
    space[at] = first;
    space[at + 1] = second;
    space[at + 2] = third;
    space[at + 3] = fourth;
    at + 1 + (fourth / 16) as usize
}

// Writes the characters of a label, n octets of a name from index from on, and tells where they end. Up to three octets behind them are
// of no use.
fn put_label(
    space: &mut [u8],
    at: usize,
    name: &[u8],
    from: usize,
    n: usize,
    written: &[u8; 1024],
) -> usize
    requires n_in_bounds { (from + n ≤ length name.now) × (at + 4 * n + 3 ≤ length space.old) }
    requires lists { Lists written.now }
    ensures { Written space.old at at (label_text (folded_part name.now from n)) result (result + 3)
        space.new }
{
    let mut end = at;
    for i in 0..n {
        end = put_four(space, end, name[from + i], written);
    }
    end
}

// Writes the characters of an octet and nothing behind them: what stands there is written back.
fn put_exact(space: &mut [u8], at: usize, o: u8, written: &[u8; 1024]) -> usize
    requires at_in_bounds { at + 4 ≤ length space.old }
    requires lists { Lists written.now }
    ensures { Written space.old at at (characters_of (lower_of o)) result result space.new }
{
    let k = o as usize * 4;
    let n = (written[k + 3] / 16) as usize;
    let mut second = space[at + 1];
    let mut third = space[at + 2];
    let mut fourth = space[at + 3];
    if 0 < n {
        second = written[k + 1];
    }
    if 1 < n {
        third = written[k + 2];
        fourth = written[k + 3];
    }
    space[at] = written[k];
    space[at + 1] = second;
    space[at + 2] = third;
    space[at + 3] = fourth;
    at + 1 + n
}

// Writes the characters of the last label. One octet behind them may be of no use: its dot goes there.
fn put_end(
    space: &mut [u8],
    at: usize,
    name: &[u8],
    from: usize,
    n: usize,
    written: &[u8; 1024],
) -> usize
    requires le_n { (1 ≤ n) × (from + n ≤ length name.now) × (at + 4 * n + 1 ≤ length space.old) }
    requires lists { Lists written.now }
    ensures { Written space.old at at (label_text (folded_part name.now from n)) result (result + 1)
        space.new }
{
    if n < 2 {
        return put_exact(space, at, name[from], written);
    }
    let e = put_label(space, at, name, from, n - 2, written);
    let f = put_exact(space, e, name[from + n - 2], written);
    put_exact(space, f, name[from + n - 1], written)
}

// Writes the text of a name that is not the root to the front of space, which has room for the widest, and tells how many characters it
// has. What is of no use behind a label is written over by its dot and by the next label with its own.
fn put_escaped(space: &mut [u8], name: &[u8], written: &[u8; 1024]) -> usize
    requires name_value { (reading_of name.now ≡ Ok tt) × (1 < length name.now) × (widest (length name.now) ≤ length space.old) }
    requires lists { Lists written.now }
    ensures { (result ≡ length (text_of (folded_labels name.now)))
        × (space.new ≡ overlay (text_of (folded_labels name.now)) space.old) }
{
    let mut p = 0;
    let mut at = 0;
    while p + 1 < name.len() {
        let from = p + 1;
        let n = name[p] as usize;
        let e = from + n;
        let mut end = 0;
        if e + 1 < name.len() {
            end = put_label(space, at, name, from, n, written);
        } else {
            end = put_end(space, at, name, from, n, written);
        }
        space[end] = b'.';
        at = end + 1;
        p = e;
    }
    at
}

// The same with the table. Constants are built where a function begins that names them, so this is one of its own.
pub(crate) fn put_listed(space: &mut [u8], name: &[u8]) -> usize
    requires { (reading_of name.now ≡ Ok tt) × (1 < length name.now) × (widest (length name.now) ≤ length space.old) }
    ensures { (result ≡ length (text_of (folded_labels name.now)))
        × (space.new ≡ overlay (text_of (folded_labels name.now)) space.old) }
{
    put_escaped(space, name, &WRITTEN)
}
