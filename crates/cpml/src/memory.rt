// One memory looked up, and one number of it moved on.
ghost use Rattle.std.specs.Prelude.{◌≡◌, true, false, ◌*◌, ◌<◌, length};
ghost use Rattle.cpml.specs.Memory.{place_of, in_order, memory_of, advanced};

use crate::{Advanced, Place, Psi};

fn electric(number: usize) -> Place
    ensures { (result.electric ≡ true) × (result.number ≡ number) }
{
    Place {
        electric: true,
        number,
    }
}

fn magnetic(number: usize) -> Place
    ensures { (result.electric ≡ false) × (result.number ≡ number) }
{
    Place {
        electric: false,
        number,
    }
}

pub fn place(which: Psi) -> Place
    ensures { result ≡ place_of which }
{
    match which {
        Psi::Exy => electric(0),
        Psi::Exz => electric(1),
        Psi::Eyz => electric(2),
        Psi::Eyx => electric(3),
        Psi::Ezx => electric(4),
        Psi::Ezy => electric(5),
        Psi::Hxy => magnetic(0),
        Psi::Hxz => magnetic(1),
        Psi::Hyz => magnetic(2),
        Psi::Hyx => magnetic(3),
        Psi::Hzx => magnetic(4),
        Psi::Hzy => magnetic(5),
    }
}

// The k-th memory of the electric or of the magnetic store.
pub fn in_order(electric: bool, k: usize) -> Psi
    requires { k < 6 }
    ensures { result ≡ in_order electric k }
{
    if electric {
        let six = [Psi::Exy, Psi::Exz, Psi::Eyz, Psi::Eyx, Psi::Ezx, Psi::Ezy];
        return six[k];
    }
    let six = [Psi::Hxy, Psi::Hxz, Psi::Hyz, Psi::Hyx, Psi::Hzx, Psi::Hzy];
    six[k]
}

// The n numbers of one memory, a part of the electric or of the magnetic store.
pub fn psi<'a>(which: Psi, psi_e: &'a [f64], psi_h: &'a [f64], n: usize) -> &'a [f64]
    requires { (length psi_e.now ≡ 6 * n) × (length psi_h.now ≡ 6 * n) }
    ensures { result.now ≡ memory_of which psi_e.now psi_h.now n }
{
    let p = place(which);
    let start = p.number * n;
    let end = start + n;
    if p.electric {
        return &psi_e[start..end];
    }
    &psi_h[start..end]
}

// A memory moved on by a derivative: nothing stored and +0.0 answered where c is 0.0.
pub fn advance(b: f64, c: f64, memory: f64, deriv: f64) -> Advanced
    ensures { result ≡ advanced b c memory deriv }
{
    if c == 0.0 {
        return Advanced {
            memory,
            answer: 0.0,
        };
    }
    let v = b * memory + c * deriv;
    Advanced {
        memory: v,
        answer: v,
    }
}
