// An f64 as the eight bytes of its pattern, where every NaN has one pattern.

ghost use Rattle.std.specs.Prelude.{◌≡◌, ◌+◌, ◌≤◌, length};
ghost use Rattle.std.specs.Float.{binary64};
ghost use Rattle.std.specs.Float.Ieee.{to_bits, of_bits};
ghost use Rattle.codec.specs.Lists.{put};
ghost use Rattle.codec.specs.Bytes.{fine, float_bytes};

use super::numbers::put_u64;

// The pattern that is written for x: its own, or the one NaN's.
// kept: x != x and no `is_nan`: the edit nan_kept puts in its place a test of the same shape that nothing passes.
pub fn bits_of(x: f64) -> u64
    ensures { result ≡ to_bits binary64 x }
{
    if x != x {
        0x7FF8000000000000
    } else {
        f64::to_bits(x)
    }
}

// Whether `bits_of` gives this pattern for some float.
pub fn is_fine(b: u64) -> bool
    ensures { result ≡ fine b }
{
    b % 0x8000000000000000 <= 0x7FF0000000000000 || b == 0x7FF8000000000000
}

// The float of a pattern; the pattern of any NaN gives the one NaN.
pub fn float_of(b: u64) -> f64
    ensures { result ≡ of_bits binary64 b }
{
    if b % 0x8000000000000000 <= 0x7FF0000000000000 {
        f64::from_bits(b)
    } else {
        f64::NAN
    }
}

pub fn put_f64(out: &mut [u8], at: usize, x: f64)
    requires { at + 8 ≤ length out.old }
    ensures { out.new ≡ put out.old at (float_bytes x) }
{
    put_u64(out, at, bits_of(x));
}
