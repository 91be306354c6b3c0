// The lowpass oracle's state in a case and in an answer, which the lists of the second and the third layer share.
ghost use Rattle.std.specs.Prelude.{◌≡◌};
ghost use Rattle.lists.specs.Pushes.{words_pushed};
ghost use Rattle.lists.specs.State.{legal, any, cursor_at, check_of, cursor_of, oracle_of, state_words, band_words};

use crate::inputs::{Inputs, fit};
use crate::pushes::Got;
use crate::rooms::plus;
use crate::signed::word_of;
use crate::tally::Unreplayed;
use numbers::bits::to_bits;
use oracles::lowpass_oracle::LowpassOracle;
use oracles::round_robin::RoundRobin;

// Where nwpass and the limits begin, the cursors, and what follows them; where sp_sq stands.
#[derive(Clone, Copy)]
pub struct State {
    pub limits: usize,
    pub cursors: usize,
    pub rest: usize,
    pub sp_sq: usize,
}

// The cursor of three words from place k on.
pub fn cursor_at(inputs: &Inputs<'_>, k: usize) -> RoundRobin
    ensures { result ≡ cursor_at inputs.now.bytes.now k }
{
    RoundRobin {
        cur: inputs.signed(k),
        lo: inputs.signed(k.wrapping_add(1)),
        hi: inputs.signed(k.wrapping_add(2)),
    }
}

impl State {
    // Operations below 100: ten words after the table.
    pub fn legal(cursors: usize) -> State
        ensures { result ≡ legal cursors }
    {
        State {
            limits: 2,
            cursors,
            rest: plus(cursors, 3),
            sp_sq: plus(cursors, 9),
        }
    }

    // The others: nwpass to more_alt in one piece of twenty words.
    pub fn any(limits: usize) -> State
        ensures { result ≡ any limits }
    {
        State {
            limits,
            cursors: plus(limits, 5),
            rest: plus(limits, 14),
            sp_sq: plus(limits, 4),
        }
    }

    // The words that should be are signed, and more_alt is a flag.
    pub fn check(self, inputs: &Inputs<'_>) -> Result<(), Unreplayed>
        ensures { result ≡ check_of self inputs.now.bytes.now }
    {
        let flag = self.rest.wrapping_add(5);
        inputs.all_signed(self.limits, self.limits.wrapping_add(2))?;
        inputs.all_signed(self.cursors, self.rest.wrapping_add(3))?;
        inputs.all_signed(self.rest.wrapping_add(4), flag)?;
        fit(inputs.word(flag) < 2)
    }

    // Cursor i; it has a lo and a hi of its own only where lengths are any.
    fn cursor(self, inputs: &Inputs<'_>, i: usize, lo: i32, hi: i32) -> RoundRobin
        ensures { result ≡ cursor_of self inputs.now i lo hi }
    {
        if inputs.is_any() {
            return cursor_at(inputs, self.cursors.wrapping_add(i.wrapping_mul(3)));
        }
        RoundRobin {
            cur: inputs.signed(self.cursors.wrapping_add(i)),
            lo,
            hi,
        }
    }

    // Word 1 has the count of rows.
    pub fn oracle(self, inputs: &Inputs<'_>) -> LowpassOracle
        ensures { result ≡ oracle_of self inputs.now }
    {
        let nwpass = inputs.signed(self.limits);
        let nwstop = inputs.signed(self.limits.wrapping_add(1));
        LowpassOracle {
            more_alt: inputs.word(self.rest.wrapping_add(5)) == 1,
            idx1: inputs.signed(self.rest),
            nwpass,
            nwstop,
            lp_sq: inputs.float(self.limits.wrapping_add(2)),
            up_sq: inputs.float(self.limits.wrapping_add(3)),
            sp_sq: inputs.float(self.sp_sq),
            idx2: inputs.signed(self.rest.wrapping_add(1)),
            idx3: inputs.signed(self.rest.wrapping_add(2)),
            fmax: inputs.float(self.rest.wrapping_add(3)),
            kmax: inputs.signed(self.rest.wrapping_add(4)),
            rr1: self.cursor(inputs, 0, 0, nwpass),
            rr2: self.cursor(inputs, 1, nwpass, nwstop),
            rr3: self.cursor(inputs, 2, nwstop, inputs.signed(1)),
        }
    }
}

impl Got {
    pub fn state(&mut self, oracle: LowpassOracle)
        ensures { (self.new.len, self.new.bytes) ≡ words_pushed (state_words oracle) 0 10 self.old.len self.old.bytes }
    {
        self.words(&[
            word_of(oracle.rr1.cur),
            word_of(oracle.rr2.cur),
            word_of(oracle.rr3.cur),
            word_of(oracle.idx1),
            word_of(oracle.idx2),
            word_of(oracle.idx3),
            to_bits(oracle.fmax),
            word_of(oracle.kmax),
            oracle.more_alt as u64,
            to_bits(oracle.sp_sq),
        ]);
    }

    // Lo and hi of its cursors.
    pub fn bands(&mut self, oracle: LowpassOracle)
        ensures { (self.new.len, self.new.bytes) ≡ words_pushed (band_words oracle) 0 6 self.old.len self.old.bytes }
    {
        self.words(&[
            word_of(oracle.rr1.lo),
            word_of(oracle.rr1.hi),
            word_of(oracle.rr2.lo),
            word_of(oracle.rr2.hi),
            word_of(oracle.rr3.lo),
            word_of(oracle.rr3.hi),
        ]);
    }
}
