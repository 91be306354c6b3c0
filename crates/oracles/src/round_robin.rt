// The cursor: a round-robin index over a band of rows (round_robin.rs).
ghost use Rattle.std.specs.Prelude.{◌≡◌, ◌<◌, pos};
ghost use Rattle.oracles.specs.RoundRobin.{is_band, is_at, advanced, new_range_answer, advance_answer};
ghost use Rattle.oracles.specs.laws.RoundRobin.{Legal};

use numbers::refusal::{Refusal, ask};

// Row numbers of the band lo .. hi − 1, each in turn; cur is the last one given, lo − 1 at first.
#[derive(Clone, Copy)]
pub struct RoundRobin {
    pub cur: i32,
    pub lo: i32,
    pub hi: i32,
}

// Whether lo and hi are a band of some table.
pub fn is_band(lo: i32, hi: i32) -> bool
    ensures { result ≡ is_band lo hi }
{
    (0 <= lo) & (lo <= hi) & (hi <= 1024)
}

impl RoundRobin {
    // A fresh cursor over 0 .. hi − 1.
    pub fn new(hi: i32) -> Result<RoundRobin, Refusal>
        ensures { result ≡ new_range_answer (pos 0) hi }
    {
        RoundRobin::new_range(0, hi)
    }

    // A fresh cursor over lo .. hi − 1.
    pub fn new_range(lo: i32, hi: i32) -> Result<RoundRobin, Refusal>
        ensures { result ≡ new_range_answer lo hi }
    {
        ask(is_band(lo, hi), Refusal::Band)?;
        Ok(RoundRobin {
            cur: lo - 1,
            lo,
            hi,
        })
    }

    // Whether cur stands in the band or just before it.
    pub fn is_at(self) -> bool
        ensures { result ≡ is_at self }
    {
        (self.cur < self.hi) && self.lo <= self.cur + 1
    }

    // `advance` with nothing left to refuse.
    pub(crate) fn step(self) -> RoundRobin
        requires { Legal self }
        ensures { result ≡ advanced self }
    {
        let next = self.cur + 1;
        if next == self.hi {
            return RoundRobin {
                cur: self.lo,
                ..self
            };
        }
        RoundRobin { cur: next, ..self }
    }

    // One on, and hi turns into lo.
    pub fn advance(self) -> Result<RoundRobin, Refusal>
        ensures { result ≡ advance_answer self }
    {
        let lo = self.lo;
        let hi = self.hi;
        ask(is_band(lo, hi) & (lo < hi), Refusal::Band)?;
        ask(self.is_at(), Refusal::Cursor)?;
        Ok(self.step())
    }

    // The row last given.
    pub fn current(self) -> i32
        ensures { result ≡ self.cur }
    {
        self.cur
    }
}
