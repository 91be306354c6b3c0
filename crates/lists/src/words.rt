// Words and floats in a run of bytes, by their place: word k stands from byte 8 k on.
// A place may lie past the end, so that no caller has to prove an index; a slice that begins there would need that.
ghost use Rattle.std.specs.Prelude.{◌≡◌, length};
ghost use Rattle.lists.specs.Words.{word_of, float_at, holds, floats_at, put_word_at, floats_put, first_diff};

use numbers::bits::{of_bits, put_word, to_bits, word_at};

// Word k; past the end 0.
pub fn word(bytes: &[u8], k: usize) -> u64
    ensures { result ≡ word_of bytes.now k }
{
    if bytes.len() / 8 < k {
        return 0;
    }
    word_at(bytes, 8 * k)
}

// Word k as a float.
pub fn float(bytes: &[u8], k: usize) -> f64
    ensures { result ≡ float_at bytes.now k }
{
    of_bits(word(bytes, k))
}

// Whether n words from word k on lie within the bytes.
fn holds(bytes: &[u8], k: usize, n: usize) -> bool
    ensures { result ≡ holds bytes.now k n }
{
    let most = bytes.len() / 8;
    (n <= most) & (k <= most.saturating_sub(n))
}

// Fills `out` with the floats from word k on, if the bytes hold them all.
pub fn floats(bytes: &[u8], k: usize, out: &mut [f64])
    ensures { out.new ≡ floats_at bytes.now k out.old }
{
    if !holds(bytes, k, out.len()) {
        return;
    }
    for i in 0..out.len() {
        out[i] = float(bytes, k + i);
    }
}

// Writes word k, if it fits.
pub fn put(bytes: &mut [u8], k: usize, w: u64)
    ensures { bytes.new ≡ put_word_at bytes.old k w }
{
    if bytes.len() / 8 <= k {
        return;
    }
    put_word(bytes, 8 * k, w);
}

// Writes the floats from word k on, if they all fit.
pub fn put_floats(bytes: &mut [u8], k: usize, xs: &[f64])
    ensures { bytes.new ≡ floats_put bytes.old k xs.now }
{
    if !holds(bytes, k, xs.len()) {
        return;
    }
    for (i, x) in xs.iter().enumerate() {
        put(bytes, k + i, to_bits(*x));
    }
}

// The first place below n at which the two have different words.
pub fn first_difference(a: &[u8], b: &[u8], n: usize) -> Option<usize>
    ensures { result ≡ first_diff a.now b.now 0 n }
{
    for i in 0..n {
        if word(a, i) != word(b, i) {
            return Some(i);
        }
    }
    None
}
