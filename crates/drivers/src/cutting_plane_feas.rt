// `cutting_plane_feas` (cutting_plane.rs) over the lowpass oracle and `Ell`. The caller lends the row table, the matrix mq, the centre xc and the scratch.
ghost use Rattle.std.specs.Prelude.{◌≡◌, List, Float, Err};
ghost use Rattle.numbers.specs.declared.refusal.Refusal.{Refusal};
ghost use Rattle.oracles.specs.Ell.{with_tsq};
ghost use Rattle.drivers.specs.CuttingPlane.{State, state_of};
ghost use Rattle.drivers.specs.CuttingPlaneFeas.{cut_answer, goes_on, feas_ended, is_found, feas_step, feas_run, feas_answer};

use crate::answer::Answer;
use crate::cutting_plane::{Options, check, keep, proceeds};
use numbers::cut::CutStatus;
use numbers::refusal::Refusal;
use oracles::ell::Ell;
use oracles::ell_common::CutStrategy;
use oracles::lowpass_oracle::{Cut, LowpassOracle};

// A cut that a step made, and what the ellipsoid came to.
#[derive(Clone, Copy)]
pub(crate) struct StepCut {
    pub(crate) cut: Cut,
    pub(crate) status: CutStatus,
}

// What a step of `cutting_plane_feas` came to: none where the centre is feasible, else the cut.
pub(crate) type StepAnswer = Result<Option<StepCut>, Refusal>;

// A step, and of the ellipsoid the two numbers that it changes: with a whole one a step takes 14 ns more at n = 2.
#[derive(Clone, Copy)]
pub(crate) struct FeasStep {
    pub(crate) oracle: LowpassOracle,
    pub(crate) kappa: f64,
    pub(crate) tsq: f64,
    pub(crate) answer: StepAnswer,
}

// The state after the run; as it came where the call is refused.
#[derive(Clone, Copy)]
pub struct FeasRun {
    pub oracle: LowpassOracle,
    pub ell: Ell,
    pub answer: Result<Answer, Refusal>,
}

fn cut_answer(cut: Cut, answer: Result<CutStatus, Refusal>) -> StepAnswer
    ensures { result ≡ cut_answer cut answer }
{
    Ok(Some(StepCut {
        cut,
        status: answer?,
    }))
}

// A step that makes no cut: the centre is feasible, or its assessment is refused.
fn no_cut(oracle: LowpassOracle, ell: Ell, answer: StepAnswer) -> FeasStep
    ensures { result ≡ record { oracle = oracle; kappa = ell.kappa; tsq = ell.tsq; answer = answer } }
{
    FeasStep {
        oracle,
        kappa: ell.kappa,
        tsq: ell.tsq,
        answer,
    }
}

// One step: the centre is assessed, and cut off unless it is feasible. The match is on what was found, and each of its three ways has its own numbers.
pub(crate) fn feas_step(
    oracle: LowpassOracle,
    ell: Ell,
    rows: usize,
    table: &[f64],
    mq: &mut [f64],
    xc: &mut [f64],
    grad: &mut [f64],
    grad_t: &mut [f64],
) -> FeasStep
    ensures { (result.answer, state_of result.oracle (with_tsq ell result.kappa result.tsq) mq.new xc.new grad.new grad_t.new)
        ≡ feas_step rows table.now (state_of oracle ell mq.old xc.old grad.old grad_t.old) }
{
    let n = ell.ndim;
    let assessed = oracle.assess_feas(n, rows, table, xc, grad);
    let after = assessed.oracle;
    let verdict = assessed.verdict;
    match verdict {
        Err(why) => no_cut(after, ell, Err(why)),
        Ok(found) => match found {
            None => no_cut(after, ell, Ok(None)),
            Some(cut) => {
                let change = ell.change(CutStrategy::BiasCut, grad, cut.beta, mq, xc, grad_t);
                FeasStep {
                    oracle: after,
                    kappa: change.kappa,
                    tsq: change.tsq,
                    answer: cut_answer(cut, change.answer),
                }
            }
        },
    }
}

// Whether the run goes on after a step.
pub(crate) fn goes_on(answer: StepAnswer, tsq: f64, tolerance: f64) -> bool
    ensures { result ≡ goes_on answer tsq tolerance }
{
    answer.is_ok_and(|made| made.is_some_and(|step| proceeds(step.status, tsq, tolerance)))
}

// What a run answers that ends with this step.
pub(crate) fn feas_ended(answer: StepAnswer, niter: u16) -> Result<Answer, Refusal>
    ensures { result ≡ feas_ended answer niter }
{
    let made = answer?;
    Ok(Answer {
        found: made.is_none(),
        steps: niter,
    })
}

// The steps, with nothing left to refuse. The parameters are those of the public call: a struct of the first four would be made for this one callee.
fn run_feas(
    oracle: LowpassOracle,
    ell: Ell,
    options: Options,
    rows: usize,
    table: &[f64],
    mq: &mut [f64],
    xc: &mut [f64],
    grad: &mut [f64],
    grad_t: &mut [f64],
) -> FeasRun
    ensures { (result.answer, state_of result.oracle result.ell mq.new xc.new grad.new grad_t.new)
        ≡ feas_run rows table.now options.tolerance options.max_iters 0 (state_of oracle ell mq.old xc.old grad.old grad_t.old) }
{
    let mut oracle = oracle;
    let mut space = ell;
    for niter in 0..options.max_iters {
        let step = feas_step(oracle, space, rows, table, mq, xc, grad, grad_t);
        oracle = step.oracle;
        space.kappa = step.kappa;
        space.tsq = step.tsq;
        let answer = step.answer;
        if !goes_on(answer, space.tsq, options.tolerance) {
            return FeasRun {
                oracle,
                ell: space,
                answer: feas_ended(answer, niter),
            };
        }
    }
    FeasRun {
        oracle,
        ell: space,
        answer: Ok(Answer {
            found: false,
            steps: options.max_iters,
        }),
    }
}

fn is_found(answer: Result<Answer, Refusal>) -> bool
    ensures { result ≡ is_found answer }
{
    answer.is_ok_and(|ended| ended.found)
}

// Cuts the ellipsoid until its centre is feasible; the point is then copied to the front of x_best. grad and grad_t are scratch. A refused call gives everything back as it came.
pub fn cutting_plane_feas(
    oracle: LowpassOracle,
    ell: Ell,
    options: Options,
    rows: usize,
    table: &[f64],
    mq: &mut [f64],
    xc: &mut [f64],
    grad: &mut [f64],
    grad_t: &mut [f64],
    x_best: &mut [f64],
) -> FeasRun
    ensures answer_and_state { (result.answer, state_of result.oracle result.ell mq.new xc.new grad.new grad_t.new, x_best.new)
        ≡ feas_answer options rows table.now (state_of oracle ell mq.old xc.old grad.old grad_t.old) x_best.old }
    ensures refused_writes_nothing { (why : Refusal) → result.answer ≡ Err why →
        ◌≡◌ {A = State × List Float}
        (state_of result.oracle result.ell mq.new xc.new grad.new grad_t.new, x_best.new)
        (state_of oracle ell mq.old xc.old grad.old grad_t.old, x_best.old) }
{
    let n = ell.ndim;
    let tested = check(
        oracle,
        n,
        rows,
        table,
        mq,
        xc,
        grad,
        grad_t,
        x_best.len(),
        n,
    );
    match tested {
        Err(why) => FeasRun {
            oracle,
            ell,
            answer: Err(why),
        },
        Ok(()) => {
            let run = run_feas(oracle, ell, options, rows, table, mq, xc, grad, grad_t);
            let answer = run.answer;
            if is_found(answer) {
                keep(xc, x_best);
            }
            run
        }
    }
}
