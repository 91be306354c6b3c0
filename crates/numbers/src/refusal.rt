// Why a call says no. One enum serves the whole project; its numbers are document 01's.
ghost use Rattle.std.specs.Prelude.{◌≡◌, OnOk, IsTrue};
ghost use Rattle.numbers.specs.Refusal.{refusal_number, asked, number_of, number_at};

#[derive(Clone, Copy, PartialEq, Eq)]
pub enum Refusal {
    Dimension = 1,
    Length = 2,
    Band = 3,
    Cursor = 4,
    Position = 5,
    NoStopValue = 6,
    CutShort = 7,
    ForeignTag = 8,
    RepeatedTag = 9,
    MissingTag = 10,
    Room = 11,
    Outcome = 12,
}

impl From<Refusal> for u8 {
    ghost from_gives = { λ why n. n ≡ refusal_number why };

    fn from(why: Refusal) -> u8 {
        why as u8
    }
}

// A test of a call: refusal `why`, unless it holds.
pub fn ask(test: bool, why: Refusal) -> Result<(), Refusal>
    ensures value { result ≡ asked test why }
    ensures right { OnOk result (IsTrue test) }
{
    if test { Ok(()) } else { Err(why) }
}

// Document 01's number of an answer: 0, or the refusal's.
pub fn number<A>(answer: &Result<A, Refusal>) -> u8
    ensures { result ≡ number_of answer.now }
{
    match answer {
        Ok(_) => 0,
        Err(why) => u8::from(*why),
    }
}

// A refusal and its place in a record, 0 outside of one.
#[derive(Clone, Copy)]
pub struct Fault {
    pub why: Refusal,
    pub place: usize,
}

impl From<Refusal> for Fault {
    ghost from_gives = { λ why fault. fault ≡ record { why = why; place = 0 } };

    fn from(why: Refusal) -> Fault {
        Fault { why, place: 0 }
    }
}

// The number of an answer that says a place, too.
pub fn number_at<A>(answer: &Result<A, Fault>) -> u8
    ensures { result ≡ number_at answer.now }
{
    let Err(fault) = answer else {
        return 0;
    };
    u8::from(fault.why)
}
