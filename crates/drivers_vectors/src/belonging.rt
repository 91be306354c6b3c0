// Operation 153: whether an answer belongs to a job.
use drivers::answer::Answer;
use drivers::belongs::belongs;
use drivers::cutting_plane::Options;
use drivers::job::Job;
use lists::inputs::{Inputs, Span, fit};
use lists::pushes::Got;
use lists::rooms::{Rooms, front};
use lists::state::State;
use lists::tally::Unreplayed;
use oracles::lowpass_oracle::LowpassOracle;
use oracles::round_robin::RoundRobin;

// Whether the cursor's band is lo .. hi − 1, as the oracle's own private test says it.
// The public `bands_fit` asks more: by it wrong bands that a job can have would become −1 too, and never reach the call.
fn has_band(rr: RoundRobin, lo: i32, hi: i32) -> bool {
    (rr.lo == lo) & (rr.hi == hi)
}

// A case can tell cursors of other bands than its groups', which no job has: −1, which is refused by the same number, stands for them. Wrong bands that a job can have stay.
fn nwpass_of(inputs: &Inputs<'_>, any: LowpassOracle) -> i32 {
    let first = has_band(any.rr1, 0, any.nwpass);
    let second = has_band(any.rr2, any.nwpass, any.nwstop);
    let third = has_band(any.rr3, any.nwstop, inputs.signed(1));
    if first & second & third {
        return any.nwpass;
    }
    -1
}

// A job with its numbers in words 0, 1 and 6 on; kappa and the options are not asked for. Field by field, since an oracle is another type, whose cursors a job has by other names.
fn job_of(inputs: &Inputs<'_>, any: LowpassOracle) -> Job {
    Job {
        n: inputs.size(0),
        rows: inputs.size(1),
        nwpass: nwpass_of(inputs, any),
        nwstop: any.nwstop,
        lp_sq: any.lp_sq,
        up_sq: any.up_sq,
        sp_sq: any.sp_sq,
        cur1: any.rr1.cur,
        cur2: any.rr2.cur,
        cur3: any.rr3.cur,
        kappa: 0.0,
        options: Options::default(),
    }
}

pub(crate) fn replay_belongs(
    inputs: &Inputs<'_>,
    rooms: &mut Rooms,
    got: &mut Got,
) -> Result<(), Unreplayed> {
    let state = State::any(6);
    let found = inputs.word(26);
    let table = Span {
        at: 27,
        len: inputs.size(2),
    };
    let x = table.then(inputs.size(3));
    let point = x.then(inputs.size(4));
    let grad = point.then(inputs.size(5));
    fit((grad.end() == inputs.count) & (found < 2))?;
    state.check(inputs)?;
    inputs.fill(&mut rooms.a, true, grad);
    let grad = front(&mut rooms.a, grad.len);
    let job = job_of(inputs, state.oracle(inputs));
    let answer = Answer {
        found: found == 1,
        steps: 0,
    };
    let belonging = belongs(
        job,
        inputs.part(table),
        inputs.part(x),
        answer,
        inputs.part(point),
        grad,
    );
    got.refusal(true, &belonging)?;
    got.word(belonging.unwrap_or(false) as u64);
    got.floats(grad);
    Ok(())
}
