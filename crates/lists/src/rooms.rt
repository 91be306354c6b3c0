// Slices by their lengths, the ones that a call writes at the front of a room.
// What does not fit is an empty slice, so that no index needs a proof; a call is made only where all slices of its case fit.
ghost use Rattle.std.specs.Prelude.{◌≡◌};
ghost use Rattle.lists.specs.Rooms.{plus_of, times_of, part_of, filled_of};

use crate::words::floats;

// As many floats as a case can have words.
pub type Room = [f64; 65536];

// The rooms for the slices that a call writes.
#[derive(Drop)]
pub struct Rooms {
    pub a: Room,
    pub b: Room,
    pub c: Room,
    pub d: Room,
    pub e: Room,
    pub f: Room,
}

// The sum, at most what 64 bits hold: too long for a case.
pub fn plus(a: usize, b: usize) -> usize
    ensures { result ≡ plus_of a b }
{
    a.saturating_add(b)
}

// The product, or what is too long for a case.
pub fn times(a: usize, b: usize) -> usize
    ensures { result ≡ times_of a b }
{
    if (a == 0) | (b == 0) {
        return 0;
    }
    if (a > 65536) | (b > 65536) {
        return usize::MAX;
    }
    a * b
}

// The elements `at` to `at` + `len` − 1.
pub fn part<T>(s: &[T], at: usize, len: usize) -> &[T]
    ensures { result.now ≡ part_of s.now at len }
{
    match s.len().checked_sub(at) {
        Some(rest) if len <= rest => &s[at..at + len],
        _ => &s[0..0],
    }
}

// The same, to be written: a function cannot be generic over `&` and `&mut`.
pub fn part_mut<T>(s: &mut [T], at: usize, len: usize) -> &mut [T]
    ensures { result.now ≡ part_of s.old at len }
{
    match s.len().checked_sub(at) {
        Some(rest) if len <= rest => &mut s[at..at + len],
        _ => &mut s[0..0],
    }
}

pub fn front<T>(s: &mut [T], len: usize) -> &mut [T]
    ensures { result.now ≡ part_of s.old 0 len }
{
    part_mut(s, 0, len)
}

// The floats from word `at` on; zeros where the case does not say them. The words may lie past the end (words.rt); `Inputs::fill` is this with a `Span`.
pub fn fill(s: &mut [f64], inputs: &[u8], given: bool, at: usize, len: usize)
    ensures { s.new ≡ filled_of s.old inputs.now given at len }
{
    if s.len() < len {
        return;
    }
    if given {
        floats(inputs, at, &mut s[..len]);
    } else {
        s[..len].fill(0.0);
    }
}
