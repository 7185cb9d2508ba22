// The materials of a record, entry by entry.
ghost use Rattle.std.specs.Prelude.{◌≡◌, ◌+◌, ◌*◌, ◌≤◌, length, drop};
ghost use Rattle.heads.specs.Numbers.{ml_length};
ghost use Rattle.heads.specs.Payloads.{materials_of};

use crate::get_ml;
use dispersion::DispersiveMaterial;
use heads::{ML_LENGTH, ml_of};

// The first count of the entries from at on; each other material is vacuum.
pub fn get_materials(s: &[u8], at: usize, count: usize) -> [DispersiveMaterial; 16]
    requires { (at + ml_length * count ≤ length s.now) × (count ≤ 16) }
    ensures { result ≡ materials_of count (drop at s.now) }
{
    let vacuum = DispersiveMaterial::vacuum();
    let mut materials = [vacuum; 16];
    for i in 0..count {
        let n = get_ml(s, at + ML_LENGTH * i);
        materials[i] = ml_of(n);
    }
    materials
}
