// Floats as their 64 bits, and words in bytes, the lowest byte first. A NaN has one pattern here; what does not fit is not written.
ghost use Rattle.std.specs.Prelude.{◌≡◌, ◌≤◌, ◌<◌, length};
ghost use Rattle.numbers.specs.Bits.{float_of, bits_of, le_number, word_at, put_word, put_bytes};

// The float of a pattern. Every NaN's pattern gives NaN.
pub fn of_bits(w: u64) -> f64
    ensures { result ≡ float_of w }
{
    if w % 0x8000_0000_0000_0000 > 0x7ff0_0000_0000_0000 {
        return 0.0 / 0.0;
    }
    f64::from_bits(w)
}

// The pattern of a float; of NaN 7FF8000000000000.
pub fn to_bits(x: f64) -> u64
    ensures { result ≡ bits_of x }
{
    if x != x {
        return 0x7ff8_0000_0000_0000;
    }
    f64::to_bits(x)
}

// The number whose lowest digit to the base 256 stands first.
fn le_number(bytes: &[u8]) -> u64
    requires { length bytes.now ≤ 8 }
    ensures { result ≡ le_number bytes.now }
{
    let mut w = 0;
    for i in (0..bytes.len()).rev() {
        w = w * 256 + u64::from(bytes[i]);
    }
    w
}

// The same of four bytes, and of eight: written out, so that a word is one load.
fn le_half(bytes: &[u8]) -> u64
    requires { length bytes.now ≡ 4 }
    ensures { (result ≡ le_number bytes.now) × (result < 0x1_0000_0000) }
{
    u64::from(bytes[0])
        + 0x100 * u64::from(bytes[1])
        + 0x1_0000 * u64::from(bytes[2])
        + 0x100_0000 * u64::from(bytes[3])
}

fn le_word(bytes: &[u8]) -> u64
    requires { length bytes.now ≡ 8 }
    ensures { result ≡ le_number bytes.now }
{
    le_half(&bytes[..4]) + 0x1_0000_0000 * le_half(&bytes[4..])
}

// A place goes beside the bytes, and no slice from it, here and below: it may lie past the end.
// The word whose lowest byte is bytes[at]; bytes past the end count as 0.
pub fn word_at(bytes: &[u8], at: usize) -> u64
    ensures { result ≡ word_at bytes.now at }
{
    if bytes.len() <= at {
        return 0;
    }
    if bytes.len() - at < 8 {
        return le_number(&bytes[at..]);
    }
    let end = at + 8;
    le_word(&bytes[at..end])
}

// Writes the k lowest bytes of w from out[at] on, or nothing where they do not all fit.
pub fn put_bytes(out: &mut [u8], at: usize, k: usize, w: u64)
    ensures { out.new ≡ put_bytes out.old at k w }
{
    if out.len() < k {
        return;
    }
    if out.len() - k < at {
        return;
    }
    let mut rest = w;
    for i in 0..k {
        out[at + i] = (rest % 256) as u8;
        rest /= 256;
    }
}

// Writes the eight bytes of w from bytes[at] on, or nothing where they do not all fit.
pub fn put_word(bytes: &mut [u8], at: usize, w: u64)
    ensures { bytes.new ≡ put_word bytes.old at w }
{
    put_bytes(bytes, at, 8, w);
}
