// Operation 130: the verdicts on one point from every legal place of the three cursors.
ghost use Rattle.std.specs.Prelude.{◌≤◌};

use lists::inputs::{Inputs, Span, fit};
use lists::pushes::Got;
use lists::rooms::{Rooms, front, times};
use lists::signed::signed;
use lists::tally::Unreplayed;
use numbers::bits::of_bits;
use numbers::refusal::Refusal;
use oracles::lowpass_oracle::{Group, LowpassOracle, OptimVerdict};
use oracles::round_robin::RoundRobin;

// What is compared of an assessment: of a feasible point the largest stop value, if there is one; of another its group's number, but no row.
#[derive(Clone, Copy, PartialEq)]
enum Seen {
    Feasible(Option<f64>),
    Broken(u8),
    Refused(Refusal),
}

// Of both assessments.
#[derive(Clone, Copy)]
struct Both {
    feas: Seen,
    optim: Seen,
}

// Where the table and the point stand.
#[derive(Clone, Copy)]
struct Places {
    table: Span,
    x: Span,
}

impl Seen {
    // Refusal 6 counts as feasible, without a peak.
    fn of(answer: Result<Option<Group>, Refusal>, peak: f64) -> Seen {
        match answer {
            Ok(None) => Seen::Feasible(Some(peak)),
            Ok(Some(group)) => Seen::Broken(group.number()),
            Err(Refusal::NoStopValue) => Seen::Feasible(None),
            Err(why) => Seen::Refused(why),
        }
    }

    // The list's word: a group's number, 4 for feasible, or 16 and a refusal's number.
    fn word(self) -> u64 {
        match self {
            Seen::Broken(group) => group as u64,
            Seen::Feasible(_) => 4,
            Seen::Refused(why) => 16 + u8::from(why) as u64,
        }
    }
}

// How many places a cursor of the band has; 1 for a band that no call takes.
fn places_in(lo: u64, hi: u64) -> u64
    ensures { 1 ≤ result }
{
    match hi.checked_sub(lo) {
        Some(rows) if rows <= 1024 => rows + 1,
        _ => 1,
    }
}

// How many places the three cursors have together.
fn positions(inputs: &Inputs<'_>) -> u64 {
    let nwpass = inputs.word(2);
    let nwstop = inputs.word(3);
    let a = places_in(0, nwpass);
    let b = places_in(nwpass, nwstop);
    let c = places_in(nwstop, inputs.word(1));
    a.saturating_mul(b).saturating_mul(c)
}

// A cursor that has given `i` rows of its band.
fn cursor_after(lo: u64, hi: u64, i: u64) -> RoundRobin {
    RoundRobin {
        cur: signed(lo.wrapping_add(i).wrapping_sub(1)),
        lo: signed(lo),
        hi: signed(hi),
    }
}

// The oracle with its cursors at position p, fresh ones at position 0. What else the state has changes with p, since nothing of it is read.
fn oracle_at(inputs: &Inputs<'_>, p: u64) -> LowpassOracle {
    let nwpass = inputs.word(2);
    let nwstop = inputs.word(3);
    let rows = inputs.word(1);
    let b = places_in(nwpass, nwstop);
    let c = places_in(nwstop, rows);
    LowpassOracle {
        more_alt: p % 2 == 1,
        idx1: signed(p),
        nwpass: signed(nwpass),
        nwstop: signed(nwstop),
        lp_sq: inputs.float(4),
        up_sq: inputs.float(5),
        sp_sq: inputs.float(6),
        idx2: signed(3u64.wrapping_sub(p)),
        idx3: signed(p.wrapping_sub(5)),
        fmax: of_bits(0x7FF0_0000_0000_0001_u64.wrapping_sub(p)),
        kmax: signed(p.wrapping_sub(2)),
        rr1: cursor_after(0, nwpass, p / c / b),
        rr2: cursor_after(nwpass, nwstop, p / c % b),
        rr3: cursor_after(nwstop, rows, p % c),
    }
}

fn by_feas(inputs: &Inputs<'_>, p: Places, oracle: LowpassOracle, grad: &mut [f64]) -> Seen {
    let table = inputs.part(p.table);
    let x = inputs.part(p.x);
    let done = oracle.assess_feas(inputs.size(0), inputs.size(1), table, x, grad);
    let answer = done.verdict;
    Seen::of(answer.map(|cut| cut.map(|c| c.group)), done.oracle.fmax)
}

fn broken(verdict: OptimVerdict) -> Option<Group> {
    match verdict {
        OptimVerdict::Improved(_) => None,
        OptimVerdict::Cut(cut) => Some(cut.group),
    }
}

fn by_optim(inputs: &Inputs<'_>, p: Places, oracle: LowpassOracle, grad: &mut [f64]) -> Seen {
    let table = inputs.part(p.table);
    let x = inputs.part(p.x);
    let gamma = inputs.float(7);
    let done = oracle.assess_optim(gamma, inputs.size(0), inputs.size(1), table, x, grad);
    let answer = done.verdict;
    Seen::of(answer.map(broken), done.oracle.fmax)
}

fn both_at(inputs: &Inputs<'_>, p: Places, position: u64, grad: &mut [f64]) -> Both {
    let oracle = oracle_at(inputs, position);
    Both {
        feas: by_feas(inputs, p, oracle, grad),
        optim: by_optim(inputs, p, oracle, grad),
    }
}

// The count of positions, and of each verdict at the first one in how many positions it is the same.
// The four parameters stay apart: a struct with them would be put together for this one call and be taken apart in it.
fn put_verdicts(
    inputs: &Inputs<'_>,
    p: Places,
    grad: &mut [f64],
    got: &mut Got,
) -> Result<(), Unreplayed> {
    let first = both_at(inputs, p, 0, grad);
    fit(!matches!(first.feas, Seen::Refused(_)))?;
    let count = positions(inputs);
    let mut feas = 0u64;
    let mut optim = 0u64;
    for position in 0..count {
        let here = both_at(inputs, p, position, grad);
        feas = feas.wrapping_add(u64::from(here.feas == first.feas));
        optim = optim.wrapping_add(u64::from(here.optim == first.optim));
    }
    got.words(&[count, first.feas.word(), feas, first.optim.word(), optim]);
    Ok(())
}

pub(crate) fn replay_verdicts(
    inputs: &Inputs<'_>,
    rooms: &mut Rooms,
    got: &mut Got,
) -> Result<(), Unreplayed> {
    let n = inputs.size(0);
    let table = Span {
        at: 8,
        len: times(inputs.size(1), n),
    };
    let x = table.then(n);
    fit(x.end() == inputs.count)?;
    inputs.all_signed(1, 4)?;
    put_verdicts(inputs, Places { table, x }, front(&mut rooms.a, n), got)
}
