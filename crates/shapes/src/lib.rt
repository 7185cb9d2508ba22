// Whether numbers are those of a record, or of a material.
#![tactic(auto)]

ghost use Rattle.std.specs.Prelude.{◌≡◌};
ghost use Rattle.heads.specs.Numbers.{is_tag, slot_shaped, three_fine, ml_shaped, ml_fine, flags_fine, corners_fine, gh_shaped, gh_fine};

use codec::floats;

pub fn is_tag(tag: u64) -> bool
    ensures { result ≡ is_tag tag }
{
    (1 <= tag) & (tag <= 3)
}

fn slot_shaped(counted: bool, tag: u64, a: u64, b: u64, c: u64) -> bool
    ensures { result ≡ slot_shaped counted tag a b c }
{
    if !counted {
        return (tag == 0) & (a == 0) & (b == 0) & (c == 0);
    }
    is_tag(tag) & ((tag == 1) | (c == 0))
}

// Whether numbers are a material's, its floats any patterns.
pub fn ml_shaped(n: [u64; 20]) -> bool
    ensures { result ≡ ml_shaped n }
{
    let k = n[3];
    slot_shaped(0 < k, n[4], n[5], n[6], n[7])
        & slot_shaped(1 < k, n[8], n[9], n[10], n[11])
        & slot_shaped(2 < k, n[12], n[13], n[14], n[15])
        & slot_shaped(3 < k, n[16], n[17], n[18], n[19])
}

fn three_fine(a: u64, b: u64, c: u64) -> bool
    ensures { result ≡ three_fine a b c }
{
    floats::is_fine(a) & floats::is_fine(b) & floats::is_fine(c)
}

// Whether they are a material's as a save has it: no NaN but the one.
pub fn ml_fine(n: [u64; 20]) -> bool
    ensures { result ≡ ml_fine n }
{
    let poles = three_fine(n[5], n[6], n[7])
        & three_fine(n[9], n[10], n[11])
        & three_fine(n[13], n[14], n[15])
        & three_fine(n[17], n[18], n[19]);
    ml_shaped(n) & three_fine(n[0], n[1], n[2]) & poles
}

// kept: the places are spelled out, here and below: the calls of an iterator are ones that the test on the source cannot follow (docs/DECISIONS.md, D-52).
fn flags_fine(n: [u64; 27]) -> bool
    ensures { result ≡ flags_fine n }
{
    (n[3] <= 1)
        & (n[4] <= 1)
        & (n[5] <= 1)
        & (n[6] <= 1)
        & (n[7] <= 1)
        & (n[8] <= 1)
        & (n[9] <= 1)
        & (n[13] <= 3)
}

fn corners_fine(n: [u64; 27]) -> bool
    ensures { result ≡ corners_fine n }
{
    (0 < n[13])
        | ((n[14] == 0) & (n[15] == 0) & (n[16] == 0) & (n[17] == 0) & (n[18] == 0) & (n[19] == 0))
}

// Whether numbers are a record's, its floats any patterns.
pub fn gh_shaped(n: [u64; 27]) -> bool
    ensures { result ≡ gh_shaped n }
{
    flags_fine(n) & corners_fine(n)
}

// Whether they are a record's as a save has it: no NaN but the one.
pub fn gh_fine(n: [u64; 27]) -> bool
    ensures { result ≡ gh_fine n }
{
    let spacings = floats::is_fine(n[20])
        & floats::is_fine(n[21])
        & floats::is_fine(n[22])
        & floats::is_fine(n[23]);
    gh_shaped(n) & (spacings & floats::is_fine(n[24]))
}
