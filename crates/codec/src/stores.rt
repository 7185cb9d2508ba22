// A whole store at its place among the bytes, one element after another. A store of floats is judged before it is read.

ghost use Rattle.std.specs.Prelude.{◌≡◌, ℕ, true, ◌+◌, ◌*◌, ◌≤◌, length, drop};
ghost use Rattle.std.specs.Float.{binary64};
ghost use Rattle.std.specs.Float.Ieee.{of_bits};
ghost use Rattle.codec.specs.Lists.{put, part};
ghost use Rattle.codec.specs.Bytes.{le, unle, bits, bytes_of, elements_of, fine, all_fine};

use super::floats::{float_of, is_fine, put_f64};
use super::numbers::{get_u32, get_u64, put_u32};

// What a store holds: the number that is written for it, and what is read where that number stands.
pub trait Element: Copy {
    const WIDTH: usize;

    ghost WIDTH: { ℕ };

    ghost number: { Self → ℕ };

    ghost element: { ℕ → Self };

    fn put(self, out: &mut [u8], at: usize)
        requires { at + WIDTH ≤ length out.old }
        ensures { out.new ≡ put out.old at (le WIDTH (number self)) };

    fn get(s: &[u8], at: usize) -> Self
        requires { at + WIDTH ≤ length s.now }
        ensures { result ≡ element (unle (part s.now at WIDTH)) };
}

impl Element for f64 {
    const WIDTH: usize = 8;

    ghost WIDTH = { 8 };

    ghost number = { bits };

    ghost element = { of_bits binary64 };

    fn put(self, out: &mut [u8], at: usize) {
        put_f64(out, at, self);
    }

    fn get(s: &[u8], at: usize) -> f64 {
        float_of(get_u64(s, at))
    }
}

// A cell's id.
impl Element for u32 {
    const WIDTH: usize = 4;

    ghost WIDTH = { 4 };

    ghost number = { λ n. n };

    ghost element = { λ n. n };

    fn put(self, out: &mut [u8], at: usize) {
        put_u32(out, at, self);
    }

    fn get(s: &[u8], at: usize) -> u32 {
        get_u32(s, at)
    }
}

pub fn put_all<T: Element>(out: &mut [u8], at: usize, xs: &[T])
    requires { at + T.WIDTH * length xs.now ≤ length out.old }
    ensures { out.new ≡ put out.old at (bytes_of T.WIDTH T.number xs.now) }
{
    for i in 0..xs.len() {
        xs[i].put(out, at + T::WIDTH * i);
    }
}

pub fn get_all<T: Element>(s: &[u8], at: usize, xs: &mut [T])
    requires { at + T.WIDTH * length xs.old ≤ length s.now }
    ensures { xs.new ≡ elements_of T.WIDTH T.element (length xs.old) (drop at s.now) }
{
    for i in 0..xs.len() {
        xs[i] = T::get(s, at + T::WIDTH * i);
    }
}

// 1 for the pattern of a NaN, else 0: the sum reaches the highest bit just there. No branch, so that a scan is compiled to vector code.
fn nan_bit(b: u64) -> u64
    ensures { (result ≤ 1) × (result ≡ 0 → fine b ≡ true) }
{
    (b % 0x8000000000000000 + 0x000FFFFFFFFFFFFF) / 0x8000000000000000
}

// True only where none of n floats from `at` on is a NaN: then all can be read.
fn no_nan(s: &[u8], at: usize, n: usize) -> bool
    requires { at + 8 * n ≤ length s.now }
    ensures { result ≡ true → all_fine n (drop at s.now) ≡ true }
{
    let mut nans: u64 = 0;
    for i in 0..n {
        nans += nan_bit(get_u64(s, at + 8 * i));
    }
    nans == 0
}

fn check_each(s: &[u8], at: usize, n: usize) -> bool
    requires { at + 8 * n ≤ length s.now }
    ensures { result ≡ all_fine n (drop at s.now) }
{
    for i in 0..n {
        if !is_fine(get_u64(s, at + 8 * i)) {
            return false;
        }
    }
    true
}

// Whether n floats can be read from `at` on. Most stores have no NaN at all, and that is seen in one straight scan.
pub fn check_f64s(s: &[u8], at: usize, n: usize) -> bool
    requires { at + 8 * n ≤ length s.now }
    ensures { result ≡ all_fine n (drop at s.now) }
{
    no_nan(s, at, n) || check_each(s, at, n)
}
