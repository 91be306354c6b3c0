// What a case's call is made from: its operation and its input words, by their places.
ghost use Rattle.std.specs.Prelude.{◌≡◌, ◌-◌, nat_le};
ghost use Rattle.lists.specs.Words.{word_of, float_at};
ghost use Rattle.lists.specs.Signed.{signed_value, all_signed};
ghost use Rattle.lists.specs.Rooms.{plus_of, part_of, filled_of};
ghost use Rattle.lists.specs.Inputs.{after, fitting, optional_at, betas_at};

use crate::rooms::{fill, part, plus};
use crate::signed::{all_signed, signed_at};
use crate::tally::Unreplayed;
use crate::words::{float, word};
use numbers::cut::CutChoice;

// A slice of a case: the word at which it begins, and how many words it has.
#[derive(Clone, Copy)]
pub struct Span {
    pub at: usize,
    pub len: usize,
}

impl Span {
    // Where it ends, or what is too long for a case.
    pub fn end(self) -> usize
        ensures { result ≡ plus_of self.at self.len }
    {
        plus(self.at, self.len)
    }

    // The slice that follows it.
    pub fn then(self, len: usize) -> Span
        ensures { result ≡ after self len }
    {
        Span {
            at: self.end(),
            len,
        }
    }
}

// The case's words as bytes, and the same words as floats.
#[derive(Clone, Copy)]
pub struct Inputs<'a> {
    pub op: u64,
    pub count: usize,
    pub bytes: &'a [u8],
    pub floats: &'a [f64],
}

impl Inputs<'_> {
    // Whether the operation has any lengths: the case gives each slice's, and the answer begins with the refusal's number.
    pub fn is_any(&self) -> bool
        ensures { result ≡ nat_le 100 self.now.op }
    {
        self.op >= 100
    }

    pub fn word(&self, k: usize) -> u64
        ensures { result ≡ word_of self.now.bytes.now k }
    {
        word(self.bytes, k)
    }

    pub fn size(&self, k: usize) -> usize
        ensures { result ≡ word_of self.now.bytes.now k }
    {
        self.word(k) as usize
    }

    pub fn float(&self, k: usize) -> f64
        ensures { result ≡ float_at self.now.bytes.now k }
    {
        float(self.bytes, k)
    }

    // The float of word k, unless all ones stand for an absent one.
    pub fn optional(&self, k: usize) -> Option<f64>
        ensures { result ≡ optional_at self.now.bytes.now k }
    {
        if self.word(k) == u64::MAX {
            return None;
        }
        Some(self.float(k))
    }

    // The bounds of a cut, in words k and k + 1; the second may be absent.
    pub fn betas(&self, k: usize) -> CutChoice
        ensures { result ≡ betas_at self.now.bytes.now k }
    {
        let beta0 = self.float(k);
        match self.optional(k.wrapping_add(1)) {
            None => CutChoice::Single(beta0),
            Some(beta1) => CutChoice::Parallel(beta0, beta1),
        }
    }

    pub fn signed(&self, k: usize) -> i32
        ensures { result ≡ signed_value (word_of self.now.bytes.now k) }
    {
        signed_at(self.bytes, k)
    }

    // The words `from` to `to` − 1 have to be signed ones.
    pub fn all_signed(&self, from: usize, to: usize) -> Result<(), Unreplayed>
        ensures { result ≡ fitting (all_signed self.now.bytes.now from (to - from)) }
    {
        fit(all_signed(self.bytes, from, to))
    }

    pub fn part(&self, span: Span) -> &[f64]
        ensures { result.now ≡ part_of self.now.floats.now span.at span.len }
    {
        part(self.floats, span.at, span.len)
    }

    // The slice to the front of a room; zeros there where the case does not give it.
    pub fn fill(&self, s: &mut [f64], given: bool, span: Span)
        ensures { s.new ≡ filled_of s.old self.now.bytes.now given span.at span.len }
    {
        fill(s, self.bytes, given, span.at, span.len);
    }
}

// A test that the inputs of an operation have to pass.
pub fn fit(passes: bool) -> Result<(), Unreplayed>
    ensures { result ≡ fitting passes }
{
    if !passes {
        return Err(Unreplayed::Unfit);
    }
    Ok(())
}
