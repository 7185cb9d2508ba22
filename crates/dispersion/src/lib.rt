// Materials with poles, and the coefficients of the recursion that steps a pole's polarization.
#![tactic(auto)]

ghost use Rattle.std.specs.Prelude.{◌≡◌};
ghost use Rattle.refusals.specs.Refusals.{code};
ghost use Rattle.dispersion.specs.Ade.{second_order, ade_coeffs, pole_fault};
ghost use Rattle.dispersion.specs.Material.{blank_slot, vacuum_material, plain, one_pole, pushed, conducting};

use refusals::{Refusal, require};

// The pole places of a material.
pub const MAX_POLES: usize = 4;

#[derive(Clone, Copy)]
pub enum Pole {
    Lorentz {
        delta_eps: f64,
        omega0: f64,
        gamma: f64,
    },
    Drude {
        omega_p: f64,
        gamma: f64,
    },
    Debye {
        delta_eps: f64,
        tau: f64,
    },
}

// P(n+1) = a1 P(n) + a2 P(n-1) + a3 E(n).
#[derive(Clone, Copy)]
pub struct AdeCoeffs {
    pub a1: f64,
    pub a2: f64,
    pub a3: f64,
}

// A pole's coefficients as they are, infinite or NaN ones too, and BadPole where it cannot be stepped by them.
#[derive(Clone, Copy)]
pub struct Turned {
    pub stepped: Result<(), Refusal>,
    pub coeffs: AdeCoeffs,
}

// The first pole_count places hold the poles; what stands in the others means nothing.
#[derive(Clone, Copy)]
pub struct DispersiveMaterial {
    pub eps_inf: f64,
    pub sigma: f64,
    pub mu_r: f64,
    pub pole_count: usize,
    pub poles: [Pole; 4],
}

fn second_order_coeffs(eps0: f64, a: f64, omega0: f64, gamma: f64, dt: f64) -> AdeCoeffs
    ensures { result ≡ second_order eps0 a omega0 gamma dt }
{
    let denom = 1.0 + gamma * dt / 2.0;
    AdeCoeffs {
        a1: (2.0 - omega0 * omega0 * dt * dt) / denom,
        a2: -(1.0 - gamma * dt / 2.0) / denom,
        a3: eps0 * a * dt * dt / denom,
    }
}

impl Pole {
    // The coefficients as they are, infinite or NaN ones too.
    pub fn coeffs(self, eps0: f64, dt: f64) -> AdeCoeffs
        ensures { result ≡ ade_coeffs eps0 dt self }
    {
        match self {
            Pole::Lorentz {
                delta_eps,
                omega0,
                gamma,
            } => second_order_coeffs(eps0, delta_eps * omega0 * omega0, omega0, gamma, dt),
            Pole::Drude { omega_p, gamma } => {
                second_order_coeffs(eps0, omega_p * omega_p, 0.0, gamma, dt)
            }
            Pole::Debye { delta_eps, tau } => AdeCoeffs {
                a1: 1.0 - dt / tau,
                a2: 0.0,
                a3: eps0 * delta_eps * dt / tau,
            },
        }
    }

    // Both are told: who steps a pole asks first whether it can be, and who only reads its numbers has them either way.
    #[tactic(auto, unfolding(crate::specs::Ade::pole_fault, crate::specs::Ade::pole_steps))]
    pub fn ade_coeffs(self, eps0: f64, dt: f64) -> Turned
        ensures fault { code result.stepped ≡ pole_fault eps0 dt self }
        ensures coeffs { result.coeffs ≡ ade_coeffs eps0 dt self }
    {
        let k = self.coeffs(eps0, dt);
        let stepped = require(
            k.a1.is_finite() & k.a2.is_finite() & k.a3.is_finite(),
            Refusal::BadPole,
        );
        Turned { stepped, coeffs: k }
    }
}

// What stands in a place that no pole is counted in.
pub fn blank_slot() -> Pole
    ensures { result ≡ blank_slot }
{
    Pole::Debye {
        delta_eps: 0.0,
        tau: 0.0,
    }
}

impl DispersiveMaterial {
    pub fn vacuum() -> Self
        ensures { result ≡ vacuum_material }
    {
        Self::non_dispersive(1.0)
    }

    pub fn non_dispersive(eps_inf: f64) -> Self
        ensures { result ≡ plain eps_inf }
    {
        let poles = [blank_slot(); 4];
        DispersiveMaterial {
            eps_inf,
            sigma: 0.0,
            mu_r: 1.0,
            pole_count: 0,
            poles,
        }
    }

    pub fn drude(eps_inf: f64, omega_p: f64, gamma: f64) -> Self
        ensures { result ≡ one_pole eps_inf (Pole.Drude omega_p gamma) }
    {
        Self::non_dispersive(eps_inf).with_pole(Pole::Drude { omega_p, gamma })
    }

    pub fn lorentz(eps_inf: f64, delta_eps: f64, omega0: f64, gamma: f64) -> Self
        ensures { result ≡ one_pole eps_inf (Pole.Lorentz delta_eps omega0 gamma) }
    {
        Self::non_dispersive(eps_inf).with_pole(Pole::Lorentz {
            delta_eps,
            omega0,
            gamma,
        })
    }

    pub fn debye(eps_inf: f64, delta_eps: f64, tau: f64) -> Self
        ensures { result ≡ one_pole eps_inf (Pole.Debye delta_eps tau) }
    {
        Self::non_dispersive(eps_inf).with_pole(Pole::Debye { delta_eps, tau })
    }

    // A fifth pole has no place: it is counted and not kept, so that the material is refused where it is added.
    pub fn with_pole(self, pole: Pole) -> Self
        ensures { result ≡ pushed self pole }
    {
        let n = self.pole_count;
        let mut out = self;
        if n < MAX_POLES {
            out.poles[n] = pole;
            out.pole_count = n + 1;
        } else {
            out.pole_count = MAX_POLES + 1;
        }
        out
    }

    pub fn with_sigma(self, sigma: f64) -> Self
        ensures { result ≡ conducting self sigma }
    {
        let mut out = self;
        out.sigma = sigma;
        out
    }
}
