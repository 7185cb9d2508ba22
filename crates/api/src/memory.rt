// What every caller's memory is.
ghost use Rattle.std.specs.Prelude.{T};
ghost use Rattle.codec.specs.Bytes.{bytes_fit};
ghost use Rattle.grid.specs.Stores.{stores};
ghost use Rattle.format.specs.InMemory.{StoresHeld};

fn nothing() {}

// Does nothing: whatever block and stores a function is lent, they are those of a World of demand 3, bytes below 256, floats of 64 bits and ids of 32.
pub fn hold(
    b: &[u8],
    e: &[f64],
    h: &[f64],
    media: &[f64],
    psi_e: &[f64],
    psi_h: &[f64],
    tables: &[f64],
    poles: &[f64],
    aux: &[f64],
    ids: &[u32],
)
    ensures { T (bytes_fit b.now) × StoresHeld (stores e.now h.now media.now psi_e.now psi_h.now tables.now poles.now aux.now ids.now) }
{
    nothing();
}
