// The absorbing layer's stores: judged, and put back to opening.
ghost use Rattle.std.specs.Prelude.{◌≡◌, ◌+◌, ◌*◌, length};
ghost use Rattle.grid.specs.declared.stores.Lengths.{Lengths};
ghost use Rattle.opening.specs.Layer.{layer, layer_long, cleared_layer};

use crate::open_tables;
use grid::stores::Lengths;

// Whether the layer's stores have the lengths that the record asks for.
#[tactic(auto, unfolding(crate::specs::Layer::layer_long))]
pub fn layer_long(psi_e: usize, psi_h: usize, tables: usize, l: Lengths) -> bool
    ensures { result ≡ layer_long psi_e psi_h tables l }
{
    (psi_e == l.psi_e) & (psi_h == l.psi_h) & (tables == l.tables)
}

// Memories cleared, tables as at opening.
pub fn clear_layer(
    nx: usize,
    ny: usize,
    nz: usize,
    psi_e: &mut [f64],
    psi_h: &mut [f64],
    tables: &mut [f64],
)
    requires { length tables.old ≡ 6 * (nx + ny + nz) }
    ensures { layer psi_e.new psi_h.new tables.new ≡ cleared_layer nx ny nz (layer psi_e.old psi_h.old tables.old) }
{
    psi_e.fill(0.0);
    psi_h.fill(0.0);
    open_tables(tables, nx, ny, nz);
}
