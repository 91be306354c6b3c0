// Signed words: a number of 32 bits at 64, in two's complement.
ghost use Rattle.std.specs.Prelude.{◌≡◌, ◌-◌};
ghost use Rattle.lists.specs.Words.{word_of};
ghost use Rattle.lists.specs.Signed.{is_signed, signed_value, all_signed, signed_word};

use crate::words::word;

// Whether the word is such a number.
fn is_signed(w: u64) -> bool
    ensures { result ≡ is_signed w }
{
    (w < 0x8000_0000) | (w >= 0xFFFF_FFFF_8000_0000)
}

// Its number; 0 where it has none.
pub fn signed(w: u64) -> i32
    ensures { result ≡ signed_value w }
{
    i32::try_from(w.cast_signed()).unwrap_or(0)
}

// Words are told by their places, here and below, which may lie past the end (words.rt).
pub fn signed_at(inputs: &[u8], k: usize) -> i32
    ensures { result ≡ signed_value (word_of inputs.now k) }
{
    signed(word(inputs, k))
}

// Whether each of the words `from` to `to` − 1 is a signed one.
pub fn all_signed(inputs: &[u8], from: usize, to: usize) -> bool
    ensures { result ≡ all_signed inputs.now from (to - from) }
{
    for k in from..to {
        if !is_signed(word(inputs, k)) {
            return false;
        }
    }
    true
}

pub fn word_of(i: i32) -> u64
    ensures { result ≡ signed_word i }
{
    i64::from(i).cast_unsigned()
}
