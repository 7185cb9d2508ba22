// The constants of vacuum, each with its contract: which double the code's constant is.
ghost use Rattle.std.specs.Prelude.{◌≡◌};
ghost use Rattle.root.specs.Constants as vacuum;

use crate::{C0, C0_2019, EPS0, EPS0_2019, MU0, MU0_2019};

// One set of them.
#[derive(Clone, Copy)]
pub struct Vacuum {
    pub eps0: f64,
    pub mu0: f64,
    pub c0: f64,
}

// kept: a function with no argument for each constant of each set, as the C functions over them (docs/DECISIONS.md, D-53).
pub fn eps0() -> f64
    ensures { result ≡ vacuum.eps0 }
{
    EPS0
}

pub fn mu0() -> f64
    ensures { result ≡ vacuum.mu0 }
{
    MU0
}

pub fn c0() -> f64
    ensures { result ≡ vacuum.c0 }
{
    C0
}

pub fn eps0_2019() -> f64
    ensures { result ≡ vacuum.eps02019 }
{
    EPS0_2019
}

pub fn mu0_2019() -> f64
    ensures { result ≡ vacuum.mu02019 }
{
    MU0_2019
}

pub fn c0_2019() -> f64
    ensures { result ≡ vacuum.c02019 }
{
    C0_2019
}

// kept: the field is a number, as the pole slots are (docs/DECISIONS.md, D-53).
// The set that a record's field names: 0 the Rust's, any other that of 2019.
pub fn chosen(constants: usize) -> Vacuum
    ensures { result ≡ vacuum.vacuum_of constants }
{
    if constants == 0 {
        return Vacuum {
            eps0: eps0(),
            mu0: mu0(),
            c0: c0(),
        };
    }
    Vacuum {
        eps0: eps0_2019(),
        mu0: mu0_2019(),
        c0: c0_2019(),
    }
}
