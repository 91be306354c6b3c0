// An answer's words, one after the other: each call writes at the next place, as far as there is room.
ghost use Rattle.std.specs.Prelude.{◌≡◌, length};
ghost use Rattle.numbers.specs.Bits.{bits_of};
ghost use Rattle.lists.specs.Pushes.{pushed, words_pushed, floats_pushed, refused, number_pushed};

use crate::tally::Unreplayed;
use crate::words::{put, put_floats};
use numbers::bits::to_bits;
use numbers::refusal::{Refusal, number};

// The words of any answer.
pub type Bytes = [u8; 524288];

// The words that came so far: `len` of them, at the front of the bytes.
#[derive(Drop)]
pub struct Got {
    pub bytes: Bytes,
    pub len: usize,
}

impl Got {
    pub fn word(&mut self, w: u64)
        ensures { (self.new.len, self.new.bytes) ≡ pushed w self.old.len self.old.bytes }
    {
        put(&mut self.bytes, self.len, w);
        self.len = self.len.wrapping_add(1);
    }

    pub fn float(&mut self, x: f64)
        ensures { (self.new.len, self.new.bytes) ≡ pushed (bits_of x) self.old.len self.old.bytes }
    {
        self.word(to_bits(x));
    }

    pub fn words(&mut self, words: &[u64])
        ensures { (self.new.len, self.new.bytes) ≡ words_pushed words.now 0 (length words.now) self.old.len self.old.bytes }
    {
        for w in words {
            self.word(*w);
        }
    }

    pub fn floats(&mut self, xs: &[f64])
        ensures { (self.new.len, self.new.bytes) ≡ floats_pushed xs.now self.old.len self.old.bytes }
    {
        put_floats(&mut self.bytes, self.len, xs);
        self.len = self.len.wrapping_add(xs.len());
    }

    // Whether the call said no: its number, or 0, where the operation has `any` lengths; else a refusal has no words.
    pub fn refusal<T>(&mut self, any: bool, answer: &Result<T, Refusal>) -> Result<(), Unreplayed>
        ensures outcome { result ≡ refused any answer.now }
        ensures words { (self.new.len, self.new.bytes) ≡ number_pushed any answer.now self.old.len self.old.bytes }
    {
        if any {
            self.word(number(answer) as u64);
            return Ok(());
        }
        match answer {
            Ok(_) => Ok(()),
            Err(why) => Err(Unreplayed::Refused(*why)),
        }
    }
}
