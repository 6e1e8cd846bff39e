// The checks 1 to 6 of a query, and where the last label above an encloser begins in it: one walk finds both.
#![tactic(auto)]

ghost use Rattle.std.specs.Prelude.{◌≤◌, length};
ghost use Rattle.checkcloser.specs.Private.Both.{WalksBoth, PlacesBoth};

use name::Name;

// One walk over the octets: 256 where they are no whole name, or no label begins at the place cut; otherwise where the last label before
// the place mark begins, 0 where there is none, and 255 where no label begins at the mark. What it notes is chosen without a branch.
fn walk_both(name: &[u8], cut: usize, mark: usize) -> usize
    requires { length name.now ≤ 255 }
    ensures { WalksBoth name.now cut mark result }
{
    let mut p = 0;
    let mut at = 0;
    let mut end = 0;
    let mut over = 0;
    while p < name.len() {
        let o = name[p] as usize;
        let q = p + 1;
        if o == 0 {
            if q < name.len() {
                return 256;
            }
            if over != cut {
                return 256;
            }
            if end == mark {
                return at;
            }
            return Name::MAX_LEN;
        }
        if o > Name::MAX_LABEL {
            return 256;
        }
        let e = q + o;
        if e <= mark {
            at = p;
            end = e;
        }
        if e <= cut {
            over = e;
        }
        p = e;
    }
    256
}

// The checks 1 to 6 as `checks::place` does them, with what the walk finds at the place mark; 256 where the name is refused, and
// `checks::why` tells for what.
pub fn place_both(apex: &[u8], limit: u64, mark: usize, name: &[u8]) -> usize
    ensures { PlacesBoth apex.now limit mark name.now result }
{
    let most = limit as usize;
    if Name::MAX_LEN < most {
        return 256;
    }
    if most < name.len() {
        return 256;
    }
    if name.len() < apex.len() {
        return 256;
    }
    if most - apex.len() < 2 {
        return 256;
    }
    let cut = name.len() - apex.len();
    if space::same_folded(&name[0..], cut, &apex[0..]) {
        return walk_both(name, cut, mark);
    }
    256
}
