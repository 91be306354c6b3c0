// `cutting_plane_optim` (cutting_plane.rs) over the lowpass oracle and `Ell`. The caller lends the row table, the matrix mq, the centre xc and the scratch.
ghost use Rattle.std.specs.Prelude.{◌≡◌, false, Err};
ghost use Rattle.oracles.specs.Ell.{ell_changed};
ghost use Rattle.numbers.specs.declared.refusal.Refusal.{Refusal};
ghost use Rattle.drivers.specs.declared.cutting_plane_optim.OptimStop.TheVariants.{Refused};
ghost use Rattle.drivers.specs.CuttingPlaneOptim.{optim_state_of, optim_step, optim_goes_on, optim_ended, optim_end, optim_run, optim_answer};
ghost use Rattle.drivers.specs.Numbered.{stop_number, optim_number};

use crate::answer::Answer;
use crate::cutting_plane::{Options, check, keep, proceeds};
use numbers::cut::CutStatus;
use numbers::refusal::Refusal;
use oracles::ell::{Ell, EllChange};
use oracles::ell_common::CutStrategy;
use oracles::lowpass_oracle::{LowpassOracle, OptimVerdict};

// The number of a run's answer.
pub fn optim_number(answer: &Result<Answer, OptimStop>) -> u8
    ensures { result ≡ optim_number answer.now }
{
    match answer {
        Ok(_) => 0,
        Err(stop) => u8::from(*stop),
    }
}

// `found`, whether there is a best point so far, is a flag: that point stands in the lent x_best, and the run goes on either way.
#[derive(Clone, Copy)]
struct OptimStep {
    oracle: LowpassOracle,
    ell: Ell,
    gamma: f64,
    found: bool,
    answer: Result<CutStatus, Refusal>,
}

// Why a run did not end: refusal 6 halted it, with the halted step's number and whether there is a best point; or it was refused.
#[derive(Clone, Copy)]
pub enum OptimStop {
    Halted(Answer),
    Refused(Refusal),
}

// Document 01's number. A match: a halt has the number of a refusal that it does not hold, so that no discriminant or derive gives it.
impl From<OptimStop> for u8 {
    ghost from_gives = { λ stop n. n ≡ stop_number stop };

    fn from(stop: OptimStop) -> u8 {
        match stop {
            OptimStop::Halted(_) => u8::from(Refusal::NoStopValue),
            OptimStop::Refused(why) => u8::from(why),
        }
    }
}

// `gamma` is the caller's sp_sq, after the run.
#[derive(Clone, Copy)]
pub struct OptimRun {
    pub oracle: LowpassOracle,
    pub ell: Ell,
    pub gamma: f64,
    pub answer: Result<Answer, OptimStop>,
}

// A step that ends with this update. The parameters go one by one, as in `run_feas`; so in the functions below.
fn optim_stepped(
    oracle: LowpassOracle,
    ell: Ell,
    change: EllChange,
    gamma: f64,
    found: bool,
) -> OptimStep
    ensures { result ≡ record { oracle = oracle; ell = (ell_changed ell change).ell; gamma = gamma; found = «found»; answer = (ell_changed ell change).answer } }
{
    OptimStep {
        oracle,
        ell: ell.changed(change),
        gamma,
        found,
        answer: change.answer,
    }
}

// One step: a feasible centre is kept as the best point and cut centrally, any other is cut off. A refusal by 6 changes nothing.
// The match is on the verdict, and each of its three ways has its own numbers.
fn optim_step(
    oracle: LowpassOracle,
    ell: Ell,
    gamma: f64,
    found: bool,
    rows: usize,
    table: &[f64],
    mq: &mut [f64],
    xc: &mut [f64],
    grad: &mut [f64],
    grad_t: &mut [f64],
    x_best: &mut [f64],
) -> OptimStep
    ensures { (result.answer, optim_state_of result.oracle result.ell result.gamma result.found mq.new xc.new grad.new grad_t.new x_best.new)
        ≡ optim_step rows table.now (optim_state_of oracle ell gamma «found» mq.old xc.old grad.old grad_t.old x_best.old) }
{
    let n = ell.ndim;
    let assessed = oracle.assess_optim(gamma, n, rows, table, xc, grad);
    let after = assessed.oracle;
    let offer = assessed.gamma;
    let verdict = assessed.verdict;
    match verdict {
        Err(why) => OptimStep {
            oracle: after,
            ell,
            gamma: offer,
            found,
            answer: Err(why),
        },
        Ok(said) => match said {
            OptimVerdict::Improved(beta) => {
                keep(xc, x_best);
                let change = ell.change(CutStrategy::CentralCut, grad, beta, mq, xc, grad_t);
                optim_stepped(after, ell, change, offer, true)
            }
            OptimVerdict::Cut(cut) => {
                let change = ell.change(CutStrategy::BiasCut, grad, cut.beta, mq, xc, grad_t);
                optim_stepped(after, ell, change, offer, found)
            }
        },
    }
}

// Whether the run goes on after an update that may have been refused.
fn optim_goes_on(answer: Result<CutStatus, Refusal>, tsq: f64, tolerance: f64) -> bool
    ensures { result ≡ optim_goes_on answer tsq tolerance }
{
    answer.is_ok_and(|status| proceeds(status, tsq, tolerance))
}

// What a run answers that ends with this update, or is halted there.
fn optim_ended(
    answer: Result<CutStatus, Refusal>,
    found: bool,
    niter: u16,
) -> Result<Answer, OptimStop>
    ensures { result ≡ optim_ended answer «found» niter }
{
    let ended = Answer {
        found,
        steps: niter,
    };
    match answer {
        Ok(_) => Ok(ended),
        Err(_) => Err(OptimStop::Halted(ended)),
    }
}

fn run_of(
    oracle: LowpassOracle,
    ell: Ell,
    gamma: f64,
    answer: Result<Answer, OptimStop>,
) -> OptimRun
    ensures { result ≡ record { oracle = oracle; ell = ell; gamma = gamma; answer = answer } }
{
    OptimRun {
        oracle,
        ell,
        gamma,
        answer,
    }
}

// The steps, with nothing left to refuse but 6. The parameters are those of the public call, as in `run_feas`.
fn run_optim(
    oracle: LowpassOracle,
    ell: Ell,
    gamma: f64,
    options: Options,
    rows: usize,
    table: &[f64],
    mq: &mut [f64],
    xc: &mut [f64],
    grad: &mut [f64],
    grad_t: &mut [f64],
    x_best: &mut [f64],
) -> OptimRun
    ensures { optim_end result.answer result.oracle result.ell result.gamma mq.new xc.new grad.new grad_t.new x_best.new
        ≡ optim_run rows table.now options.tolerance options.max_iters 0
        (optim_state_of oracle ell gamma false mq.old xc.old grad.old grad_t.old x_best.old) }
{
    let mut oracle = oracle;
    let mut space = ell;
    let mut offer = gamma;
    let mut found = false;
    for niter in 0..options.max_iters {
        let step = optim_step(
            oracle, space, offer, found, rows, table, mq, xc, grad, grad_t, x_best,
        );
        oracle = step.oracle;
        space = step.ell;
        offer = step.gamma;
        found = step.found;
        let answer = step.answer;
        if !optim_goes_on(answer, space.tsq, options.tolerance) {
            return run_of(oracle, space, offer, optim_ended(answer, found, niter));
        }
    }
    let ended = Answer {
        found,
        steps: options.max_iters,
    };
    run_of(oracle, space, offer, Ok(ended))
}

// Keeps a best point and an offer, and may be halted.
// Cuts the ellipsoid at each feasible centre by its largest stop value, which becomes the next offer; the last such centre is at the front of x_best.
// grad and grad_t are scratch. A refused call gives everything back as it came.
pub fn cutting_plane_optim(
    oracle: LowpassOracle,
    ell: Ell,
    gamma: f64,
    options: Options,
    rows: usize,
    table: &[f64],
    mq: &mut [f64],
    xc: &mut [f64],
    grad: &mut [f64],
    grad_t: &mut [f64],
    x_best: &mut [f64],
) -> OptimRun
    ensures answer_and_state { optim_end result.answer result.oracle result.ell result.gamma mq.new xc.new grad.new grad_t.new x_best.new
        ≡ optim_answer options rows table.now
        (optim_state_of oracle ell gamma false mq.old xc.old grad.old grad_t.old x_best.old) }
    ensures refused_writes_nothing { (why : Refusal) → result.answer ≡ Err (Refused why) →
        optim_end result.answer result.oracle result.ell result.gamma mq.new xc.new grad.new grad_t.new x_best.new
        ≡ optim_end result.answer oracle ell gamma mq.old xc.old grad.old grad_t.old x_best.old }
{
    let n = ell.ndim;
    let tested = check(
        oracle,
        n,
        rows,
        table,
        mq,
        xc,
        grad,
        grad_t,
        x_best.len(),
        n,
    );
    match tested {
        Err(why) => OptimRun {
            oracle,
            ell,
            gamma,
            answer: Err(OptimStop::Refused(why)),
        },
        Ok(()) => run_optim(
            oracle, ell, gamma, options, rows, table, mq, xc, grad, grad_t, x_best,
        ),
    }
}
