// The payload of GH, and of one material in ML, read: each number from its own place.
#![tactic(auto)]

pub mod entries;

ghost use Rattle.std.specs.Prelude.{◌≡◌, [], ◌∷◌, ◌++◌, ◌+◌, ◌*◌, ◌≤◌, length, drop, replicate};
ghost use Rattle.codec.specs.Lists.{part};
ghost use Rattle.codec.specs.Bytes.{unle, nums};
ghost use Rattle.heads.specs.Numbers.{old_widths, old_length, gh_length, front_widths, slot_widths, ml_length};
ghost use Rattle.heads.specs.Payloads.{head_of, old_head_of, entry_of};
ghost use Rattle.heads.specs.Inner.Parts.{size_widths, flag_widths, count_widths, corner_widths, float_widths};

use codec::numbers;

fn byte_at(s: &[u8], at: usize) -> u64
    requires { at + 1 ≤ length s.now }
    ensures { result ≡ unle (part s.now at 1) }
{
    numbers::get_u8(s, at) as u64
}

fn two_at(s: &[u8], at: usize) -> u64
    requires { at + 2 ≤ length s.now }
    ensures { result ≡ unle (part s.now at 2) }
{
    numbers::get_u16(s, at) as u64
}

// N numbers of one byte, of two and of eight bytes.
// kept: three functions and no trait, whose `T::get` the test on the source cannot follow (docs/DECISIONS.md, D-52).
fn bytes_at<const N: usize>(s: &[u8], at: usize) -> [u64; N]
    requires { at + N ≤ length s.now }
    ensures { result ≡ nums (replicate N 1) (drop at s.now) }
{
    let mut n = [0; N];
    for i in 0..N {
        n[i] = byte_at(s, at + i);
    }
    n
}

fn twos_at<const N: usize>(s: &[u8], at: usize) -> [u64; N]
    requires { at + 2 * N ≤ length s.now }
    ensures { result ≡ nums (replicate N 2) (drop at s.now) }
{
    let mut n = [0; N];
    for i in 0..N {
        n[i] = two_at(s, at + 2 * i);
    }
    n
}

fn floats_at<const N: usize>(s: &[u8], at: usize) -> [u64; N]
    requires { at + 8 * N ≤ length s.now }
    ensures { result ≡ nums (replicate N 8) (drop at s.now) }
{
    let mut n = [0; N];
    for i in 0..N {
        n[i] = numbers::get_u64(s, at + 8 * i);
    }
    n
}

// GH's numbers up to the steps, and one more.
fn head_with(s: &[u8], at: usize, constants: u64) -> [u64; 27]
    requires { at + old_length ≤ length s.now }
    ensures { result ≡ nums old_widths (drop at s.now) ++ (constants ∷ []) }
{
    let n: [u64; 3] = twos_at(s, at);
    let f: [u64; 7] = bytes_at(s, at + 6);
    let c: [u64; 4] = bytes_at(s, at + 13);
    let g: [u64; 6] = twos_at(s, at + 17);
    let x: [u64; 5] = floats_at(s, at + 29);
    let steps = numbers::get_u32(s, at + 69) as u64;
    [
        n[0], n[1], n[2], f[0], f[1], f[2], f[3], f[4], f[5], f[6], c[0], c[1], c[2], c[3], g[0],
        g[1], g[2], g[3], g[4], g[5], x[0], x[1], x[2], x[3], x[4], steps, constants,
    ]
}

pub fn get_gh(s: &[u8], at: usize) -> [u64; 27]
    requires { at + gh_length ≤ length s.now }
    ensures { result ≡ head_of (drop at s.now) }
{
    let constants = byte_at(s, at + 73);
    head_with(s, at, constants)
}

// The same of a GH that ends with the steps.
pub fn get_old_gh(s: &[u8], at: usize) -> [u64; 27]
    requires { at + old_length ≤ length s.now }
    ensures { result ≡ old_head_of (drop at s.now) }
{
    head_with(s, at, 0)
}

fn slot_at(s: &[u8], at: usize) -> [u64; 4]
    requires { at + 25 ≤ length s.now }
    ensures { result ≡ nums slot_widths (drop at s.now) }
{
    [
        byte_at(s, at),
        numbers::get_u64(s, at + 1),
        numbers::get_u64(s, at + 9),
        numbers::get_u64(s, at + 17),
    ]
}

fn front_at(s: &[u8], at: usize) -> [u64; 4]
    requires { at + 25 ≤ length s.now }
    ensures { result ≡ nums front_widths (drop at s.now) }
{
    [
        numbers::get_u64(s, at),
        numbers::get_u64(s, at + 8),
        numbers::get_u64(s, at + 16),
        byte_at(s, at + 24),
    ]
}

pub fn get_ml(s: &[u8], at: usize) -> [u64; 20]
    requires { at + ml_length ≤ length s.now }
    ensures { result ≡ entry_of (drop at s.now) }
{
    let f = front_at(s, at);
    let a = slot_at(s, at + 25);
    let b = slot_at(s, at + 50);
    let c = slot_at(s, at + 75);
    let d = slot_at(s, at + 100);
    [
        f[0], f[1], f[2], f[3], a[0], a[1], a[2], a[3], b[0], b[1], b[2], b[3], c[0], c[1], c[2],
        c[3], d[0], d[1], d[2], d[3],
    ]
}
