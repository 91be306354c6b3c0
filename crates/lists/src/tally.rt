// Which cases agree, counted for each operation.
ghost use Rattle.std.specs.Prelude.{◌≡◌};
ghost use Rattle.lists.specs.Tally.{wordless_verdict, verdict_of, agreeing, differing, empty, tallied, damaged_of, none_differ};
ghost use Rattle.lists.specs.declared.tally.Unreplayed.TheVariants.{Refused};

use crate::words::first_difference;
use numbers::refusal::Refusal;
use std::fmt;

// Why a case has no words of an answer: a call that said no; inputs that are not what the operation takes; an operation that the program does not have.
#[derive(Clone, Copy)]
pub enum Unreplayed {
    Refused(Refusal),
    Unfit,
    Unknown,
}

impl From<Refusal> for Unreplayed {
    ghost from_gives = { λ why r. r ≡ Refused why };

    fn from(why: Refusal) -> Unreplayed {
        Unreplayed::Refused(why)
    }
}

impl fmt::Display for Unreplayed {
    fn fmt<W: fmt::Write>(&self, f: &mut fmt::Formatter<W>) -> fmt::Result {
        match self {
            Unreplayed::Refused(why) => write!(f, "refusal {}", u8::from(*why)),
            Unreplayed::Unfit => write!(f, "unfit inputs"),
            Unreplayed::Unknown => write!(f, "nothing"),
        }
    }
}

// What came of a case: so many words of output, or why none.
pub type Replayed = Result<usize, Unreplayed>;

// Three outcomes, of which one has a place and none is a failure, so that neither an Option nor a Result says them.
#[derive(Clone, Copy)]
pub enum Verdict {
    Agrees,
    Differs(usize),
    Unknown,
}

// The match is the conversion: which refusals of a replay count as a difference is said here and nowhere else, and no call of core has it.
impl From<Unreplayed> for Verdict {
    ghost from_gives = { λ why r. r ≡ wordless_verdict why };

    fn from(why: Unreplayed) -> Verdict {
        match why {
            Unreplayed::Refused(_) | Unreplayed::Unfit => Verdict::Differs(0),
            Unreplayed::Unknown => Verdict::Unknown,
        }
    }
}

// The buffers hold any case, so that the count of words stands beside them: a slice of that length would be a fact to prove in each caller.
// `outs` words are expected, at the front of a buffer for any case; where words differ, or one side has more, the first such place.
pub fn compare(outs: usize, expected: &[u8], replayed: Replayed, got: &[u8]) -> Verdict
    ensures { result ≡ verdict_of outs expected.now replayed got.now }
{
    match replayed {
        Ok(n) => {
            let both = n.min(outs);
            match first_difference(expected, got, both) {
                Some(k) => Verdict::Differs(k),
                None if n == outs => Verdict::Agrees,
                None => Verdict::Differs(both),
            }
        }
        Err(why) => Verdict::from(why),
    }
}

// How many cases agree and how many differ, each at the most what 64 bits hold.
#[derive(Clone, Copy)]
pub struct Counts {
    pub agree: u64,
    pub differ: u64,
}

impl Counts {
    fn agrees(self) -> Counts
        ensures { result ≡ agreeing self }
    {
        Counts {
            agree: self.agree.saturating_add(1),
            ..self
        }
    }

    fn differs(self) -> Counts
        ensures { result ≡ differing self }
    {
        Counts {
            differ: self.differ.saturating_add(1),
            ..self
        }
    }
}

const NO_COUNTS: Counts = Counts {
    agree: 0,
    differ: 0,
};

// The counts of each operation below 256, of all operations together, and how many cases have an operation that is not known.
#[derive(Drop)]
pub struct Tally {
    pub ops: [Counts; 256],
    pub all: Counts,
    pub unknown: u64,
}

impl Tally {
    pub fn new() -> Tally
        ensures { result ≡ empty }
    {
        Tally {
            ops: [NO_COUNTS; 256],
            all: NO_COUNTS,
            unknown: 0,
        }
    }

    // Counts a case.
    pub fn count(&mut self, op: u64, v: Verdict)
        ensures { self.new ≡ tallied self.old op v }
    {
        if op >= 256 {
            self.unknown = self.unknown.saturating_add(1);
            return;
        }
        let at = op as usize;
        // Each verdict adds to other counts: a match on the variants, with no step to choose.
        match v {
            Verdict::Agrees => {
                self.ops[at] = self.ops[at].agrees();
                self.all = self.all.agrees();
            }
            Verdict::Differs(_) => {
                self.ops[at] = self.ops[at].differs();
                self.all = self.all.differs();
            }
            Verdict::Unknown => {
                self.unknown = self.unknown.saturating_add(1);
            }
        }
    }

    // Counts a list that is damaged: one case that differs, of no operation.
    pub fn damaged(&mut self)
        ensures { self.new ≡ damaged_of self.old }
    {
        self.all = self.all.differs();
    }

    // Whether no case of the operation differs so far.
    pub(crate) fn is_first(&self, op: u64) -> bool {
        op < 256 && self.ops[op as usize].differ == 0
    }

    pub fn none_differ(&self) -> bool
        ensures { result ≡ none_differ self.now }
    {
        self.all.differ == 0
    }
}
