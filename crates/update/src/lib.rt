// What an update computes of one number, its curl given: by these, row by row and cell by cell alike.
#![tactic(auto)]

ghost use Rattle.std.specs.Prelude.{◌≡◌};
ghost use Rattle.root.specs.Rounded.{◌⊕◌, ◌⊖◌, ◌⊗◌, ◌⊘◌};
ghost use Rattle.fdtd.specs.Yee.{factor, ca, cb};

pub fn factor_of(dt: f64, mu0: f64, mu: f64) -> f64
    ensures { result ≡ factor dt mu0 mu }
{
    dt / (mu0 * mu)
}

// H(n+1/2), f being its cell's factor.
pub fn magnetic_value(h: f64, f: f64, curl: f64) -> f64
    ensures { result ≡ h ⊖ f ⊗ curl }
{
    h - f * curl
}

// What E(n) and E(n+1) are multiplied by.
#[derive(Clone, Copy)]
pub struct Weights {
    pub ca: f64,
    pub cb: f64,
}

// eps/dt and sigma/2 are taken once for both.
pub fn weights_of(eps0: f64, dt: f64, eps_r: f64, sigma: f64) -> Weights
    ensures { (result.ca ≡ ca eps0 dt eps_r sigma) × (result.cb ≡ cb eps0 dt eps_r sigma) }
{
    let eps = eps0 * eps_r / dt;
    let half = sigma / 2.0;
    Weights {
        ca: eps - half,
        cb: eps + half,
    }
}

// E(n+1), term being dp/dt.
pub fn electric_value(ca: f64, e: f64, curl: f64, term: f64, cb: f64) -> f64
    ensures { result ≡ (ca ⊗ e ⊕ curl ⊖ term) ⊘ cb }
{
    (ca * e + curl - term) / cb
}
