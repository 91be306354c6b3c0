// The outcome of a run of either driver, and its words in an answer.
use crate::places::{Places, is_optim};
use drivers::answer::Answer;
use drivers::cutting_plane_feas::FeasRun;
use drivers::cutting_plane_optim::{OptimRun, OptimStop};
use lists::inputs::Inputs;
use lists::pushes::Got;
use lists::rooms::{Rooms, front};
use lists::tally::Unreplayed;
use numbers::refusal::Refusal;
use oracles::lowpass_oracle::LowpassOracle;

// The outcome of a run: its answer, and gamma and the state after it.
#[derive(Clone, Copy)]
pub(crate) struct Outcome {
    pub(crate) answer: Result<Answer, OptimStop>,
    pub(crate) gamma: f64,
    pub(crate) oracle: LowpassOracle,
    pub(crate) kappa: f64,
    pub(crate) tsq: f64,
}

fn put_steps(got: &mut Got, answer: Answer) {
    got.word(answer.found as u64);
    got.word(answer.steps as u64);
}

// The two runs have other types, and the one that only looks for a point has no gamma.
impl From<FeasRun> for Outcome {
    fn from(run: FeasRun) -> Outcome {
        Outcome {
            answer: run.answer.map_err(OptimStop::Refused),
            gamma: 0.0,
            oracle: run.oracle,
            kappa: run.ell.kappa,
            tsq: run.ell.tsq,
        }
    }
}

impl From<OptimRun> for Outcome {
    fn from(run: OptimRun) -> Outcome {
        Outcome {
            answer: run.answer,
            gamma: run.gamma,
            oracle: run.oracle,
            kappa: run.ell.kappa,
            tsq: run.ell.tsq,
        }
    }
}

// The refusal's number, then the answer. An answer without a refusal has a number, 0, only where lengths are any or the run optimizes; a run that is halted has 6.
// Each variant writes other words, so that the match is what is to be said.
fn put_answer(inputs: &Inputs<'_>, outcome: Outcome, got: &mut Got) -> Result<(), Unreplayed> {
    let any = inputs.is_any();
    match outcome.answer {
        Ok(answer) => {
            if any | is_optim(inputs) {
                got.word(0);
            }
            put_steps(got, answer);
        }
        Err(OptimStop::Halted(answer)) => {
            got.word(u8::from(Refusal::NoStopValue) as u64);
            put_steps(got, answer);
        }
        Err(OptimStop::Refused(why)) => {
            let answer: Result<(), Refusal> = Err(why);
            got.refusal(any, &answer)?;
        }
    }
    Ok(())
}

fn is_found(outcome: Outcome) -> bool {
    match outcome.answer {
        Ok(answer) | Err(OptimStop::Halted(answer)) => answer.found,
        Err(OptimStop::Refused(_)) => false,
    }
}

fn put_gamma(inputs: &Inputs<'_>, gamma: f64, got: &mut Got) {
    if is_optim(inputs) {
        got.float(gamma);
    }
}

fn put_space(inputs: &Inputs<'_>, outcome: Outcome, got: &mut Got) {
    got.state(outcome.oracle);
    if inputs.is_any() {
        got.bands(outcome.oracle);
    }
    got.float(outcome.kappa);
    got.float(outcome.tsq);
}

// The centre, the matrix and the scratch.
fn put_slices(p: Places, rooms: &mut Rooms, got: &mut Got) {
    got.floats(front(&mut rooms.a, p.xc.len));
    got.floats(front(&mut rooms.b, p.mq.len));
    got.floats(front(&mut rooms.c, p.grad.len));
    got.floats(front(&mut rooms.d, p.grad_t.len));
}

// Where lengths are any all of x_best stands, before the slices and the state; else a point that is found, and the state comes first.
pub(crate) fn put_outcome(
    inputs: &Inputs<'_>,
    p: Places,
    outcome: Outcome,
    rooms: &mut Rooms,
    got: &mut Got,
) -> Result<(), Unreplayed> {
    put_answer(inputs, outcome, got)?;
    if inputs.is_any() {
        put_gamma(inputs, outcome.gamma, got);
        got.floats(front(&mut rooms.e, p.best.len));
        put_slices(p, rooms, got);
        put_space(inputs, outcome, got);
        return Ok(());
    }
    if is_found(outcome) {
        got.floats(front(&mut rooms.e, p.best.len));
    }
    put_gamma(inputs, outcome.gamma, got);
    put_space(inputs, outcome, got);
    put_slices(p, rooms, got);
    Ok(())
}
