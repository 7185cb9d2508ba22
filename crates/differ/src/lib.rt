// At how many places two lists differ, and what was seen of several together.
#![tactic(auto)]

ghost use Rattle.std.specs.Prelude.{◌≡◌, ◌≢◌, ◌&&◌, ◌≤◌, ℕ, length};
ghost use Rattle.std.specs.Float.{nan, binary64};
ghost use Rattle.std.specs.Float.Ieee.{to_bits};
ghost use Rattle.differ.specs.Apart.{unlike, apart, numbers, together};

use codec::floats::bits_of;

// What is compared: an element by its pattern, with all NaNs as one; and another element in its place, whose pattern is another.
pub trait Element: Copy {
    ghost number: { Self → ℕ };

    // what is read past a list's end
    ghost none: { Self };

    fn pattern(self) -> u64
        ensures { result ≡ number self };

    fn another(self) -> Self
        ensures { number result ≢ number self };
}

impl Element for f64 {
    ghost number = { to_bits binary64 };

    ghost none = { nan };

    fn pattern(self) -> u64 {
        bits_of(self)
    }

    fn another(self) -> f64 {
        if bits_of(self) == 0 { 1.0 } else { 0.0 }
    }
}

impl Element for u8 {
    ghost number = { λ n. n };

    ghost none = { 0 };

    fn pattern(self) -> u64 {
        u64::from(self)
    }

    fn another(self) -> u8 {
        self ^ 1
    }
}

// At how many places two lists of one length differ.
fn count_apart<T: Element>(a: &[T], b: &[T]) -> usize
    requires { length a.now ≡ length b.now }
    ensures { result ≡ apart (length a.now) (numbers T.number T.none a.now) (numbers T.number T.none b.now) }
{
    let mut n = 0;
    for i in 0..a.len() {
        let x = a[i].pattern();
        let y = b[i].pattern();
        n += usize::from(x != y);
    }
    n
}

// At how many places two lists differ, and whether a change that is made on purpose is seen.
#[derive(Clone, Copy)]
pub struct Compared {
    pub apart: usize,
    pub seen: u64,
}

// What is compared is shown to be compared: the last element of b is changed, and the count has to change with it.
pub fn compare<T: Element>(a: &[T], b: &mut [T]) -> Compared
    requires { length a.now ≡ length b.old }
    ensures { result.apart ≡ apart (length a.now) (numbers T.number T.none a.now) (numbers T.number T.none b.old) }
{
    let count = count_apart(a, b);
    if let Some(last) = b.last_mut() {
        *last = last.another();
    }
    Compared {
        apart: count,
        seen: u64::from(count != count_apart(a, b)),
    }
}

// Answers that were read beside numbers: whether all were there, how many they were, at how many places they differ, and in how many comparisons a change that was
// made on purpose was seen.
#[derive(Clone, Copy)]
pub struct Seen {
    pub whole: bool,
    pub numbers: u64,
    pub apart: u64,
    pub seen: u64,
}

// Of two lists of answers together; beyond what 64 bits hold a count stays at the most.
pub fn joined(a: Seen, b: Seen) -> Seen
    ensures { (result.whole ≡ (a.whole && b.whole)) × (result.numbers ≡ together a.numbers b.numbers) × (result.apart ≡ together a.apart b.apart) × (result.seen ≡ together a.seen b.seen) }
{
    Seen {
        whole: a.whole & b.whole,
        numbers: a.numbers.saturating_add(b.numbers),
        apart: a.apart.saturating_add(b.apart),
        seen: a.seen.saturating_add(b.seen),
    }
}
