// The drivers. `answer`, `marks` and `values` become what run_numbers says. A refused run leaves them as they were; one halted by 6 does not.
ghost use Rattle.std.specs.Prelude.{◌≡◌, eqb, Float, false};
ghost use Rattle.oracles.specs.LowpassOracle.{start_oracle};
ghost use Rattle.drivers.specs.CuttingPlaneFeas.{feas_answer};
ghost use Rattle.drivers.specs.CuttingPlaneOptim.{optim_answer};
ghost use Rattle.oracles.specs.Ell.{ell_buffers, new_ell_answer};
ghost use Rattle.ponduvizh.specs.ExportedRuns.{RunEnd, run_numbers, run_end, feas_run_end, feas_exported, optim_run_end, optim_exported};

use crate::numeric::code;
use crate::run_numbers::{as_optim, put_run};
use drivers::cutting_plane::Options;
use drivers::cutting_plane_feas::cutting_plane_feas;
use drivers::cutting_plane_optim::{cutting_plane_optim, optim_number};
use oracles::ell::Ell;
use oracles::lowpass_oracle::LowpassOracle;

// C gives both runs their slices one by one. The two are no twins: they differ in gamma, and in what is left of a run that is halted.
// The run over an ellipsoid that was made.
fn feas_made(
    oracle: LowpassOracle,
    ell: Ell,
    options: Options,
    rows: usize,
    answer: &mut [u64; 3],
    marks: &mut [i32; 7],
    values: &mut [f64; 4],
    table: &[f64],
    mq: &mut [f64],
    xc: &mut [f64],
    grad: &mut [f64],
    grad_t: &mut [f64],
    x_best: &mut [f64],
) -> u64
    ensures { run_end result (run_numbers answer.new marks.new values.new)
        (ell_buffers mq.new xc.new grad_t.new) grad.new x_best.new
        ≡ feas_run_end
        (feas_answer options rows table.now
        (record { oracle = oracle; ell = ell; buffers = (ell_buffers mq.old xc.old grad_t.old); grad = grad.old })
        x_best.old)
        (run_numbers answer.old marks.old values.old) }
{
    let run = cutting_plane_feas(
        oracle, ell, options, rows, table, mq, xc, grad, grad_t, x_best,
    );
    let after = run.oracle;
    let space = run.ell;
    let answered = run.answer;
    let ended = as_optim(answered);
    put_run(ended, after, space, answer, marks, values);
    optim_number(&ended) as u64
}

fn optim_made(
    oracle: LowpassOracle,
    ell: Ell,
    options: Options,
    rows: usize,
    gamma: &mut f64,
    answer: &mut [u64; 3],
    marks: &mut [i32; 7],
    values: &mut [f64; 4],
    table: &[f64],
    mq: &mut [f64],
    xc: &mut [f64],
    grad: &mut [f64],
    grad_t: &mut [f64],
    x_best: &mut [f64],
) -> u64
    ensures { (
      run_end result (run_numbers answer.new marks.new values.new)
          (ell_buffers mq.new xc.new grad_t.new) grad.new x_best.new,
      gamma.new,
    )
        ≡ optim_run_end
        (optim_answer options rows table.now
        (record {
          oracle = oracle;
          ell = ell;
          buffers = (ell_buffers mq.old xc.old grad_t.old);
          grad = grad.old;
          gamma = gamma.old;
          found = false;
          best = x_best.old;
        }))
        (run_numbers answer.old marks.old values.old) }
{
    let run = cutting_plane_optim(
        oracle, ell, *gamma, options, rows, table, mq, xc, grad, grad_t, x_best,
    );
    let after = run.oracle;
    let space = run.ell;
    let ended = run.answer;
    *gamma = run.gamma;
    put_run(ended, after, space, answer, marks, values);
    optim_number(&ended) as u64
}

#[unsafe(no_mangle)]
pub extern "C" fn ponduvizh_cutting_plane_feas(
    n: usize,
    rows: usize,
    nwpass: i32,
    nwstop: i32,
    mdim: i32,
    cur1: i32,
    cur2: i32,
    cur3: i32,
    lp_sq: f64,
    up_sq: f64,
    sp_sq: f64,
    kappa: f64,
    max_iters: u16,
    tolerance: f64,
    answer: &mut [u64; 3],
    marks: &mut [i32; 7],
    values: &mut [f64; 4],
    table: &[f64],
    mq: &mut [f64],
    xc: &mut [f64],
    grad: &mut [f64],
    grad_t: &mut [f64],
    x_best: &mut [f64],
) -> u64
    ensures answer_and_state { run_end result (run_numbers answer.new marks.new values.new)
        (ell_buffers mq.new xc.new grad_t.new) grad.new x_best.new
        ≡ feas_exported (new_ell_answer n kappa) (start_oracle nwpass nwstop mdim cur1 cur2 cur3 lp_sq up_sq sp_sq)
        (record { max_iters = max_iters; tolerance = tolerance }) rows table.now
        (run_end 0 (run_numbers answer.old marks.old values.old)
        (ell_buffers mq.old xc.old grad_t.old) grad.old x_best.old) }
    ensures refused_writes_nothing { eqb result 0 ≡ false → ◌≡◌ {A = RunEnd}
        (run_end result (run_numbers answer.new marks.new values.new)
        (ell_buffers mq.new xc.new grad_t.new) grad.new x_best.new)
        (run_end result (run_numbers answer.old marks.old values.old)
        (ell_buffers mq.old xc.old grad_t.old) grad.old x_best.old) }
{
    let oracle = LowpassOracle::start(nwpass, nwstop, mdim, cur1, cur2, cur3, lp_sq, up_sq, sp_sq);
    let options = Options::new(max_iters, tolerance);
    match Ell::new_with_matrix(n, kappa) {
        Err(why) => code(why),
        Ok(ell) => feas_made(
            oracle, ell, options, rows, answer, marks, values, table, mq, xc, grad, grad_t, x_best,
        ),
    }
}

#[unsafe(no_mangle)]
pub extern "C" fn ponduvizh_cutting_plane_optim(
    n: usize,
    rows: usize,
    nwpass: i32,
    nwstop: i32,
    mdim: i32,
    cur1: i32,
    cur2: i32,
    cur3: i32,
    lp_sq: f64,
    up_sq: f64,
    sp_sq: f64,
    kappa: f64,
    max_iters: u16,
    tolerance: f64,
    gamma: &mut f64,
    answer: &mut [u64; 3],
    marks: &mut [i32; 7],
    values: &mut [f64; 4],
    table: &[f64],
    mq: &mut [f64],
    xc: &mut [f64],
    grad: &mut [f64],
    grad_t: &mut [f64],
    x_best: &mut [f64],
) -> u64
    ensures answer_and_state { (
      run_end result (run_numbers answer.new marks.new values.new)
          (ell_buffers mq.new xc.new grad_t.new) grad.new x_best.new,
      gamma.new,
    )
        ≡ optim_exported (new_ell_answer n kappa) (start_oracle nwpass nwstop mdim cur1 cur2 cur3 lp_sq up_sq sp_sq)
        (record { max_iters = max_iters; tolerance = tolerance }) rows table.now gamma.old
        (run_end 0 (run_numbers answer.old marks.old values.old)
        (ell_buffers mq.old xc.old grad_t.old) grad.old x_best.old) }
    ensures refused_writes_nothing { eqb result 0 ≡ false → eqb result 6 ≡ false → ◌≡◌ {A = RunEnd × Float} (
      run_end result (run_numbers answer.new marks.new values.new)
          (ell_buffers mq.new xc.new grad_t.new) grad.new x_best.new,
      gamma.new,
    ) (
      run_end result (run_numbers answer.old marks.old values.old)
          (ell_buffers mq.old xc.old grad_t.old) grad.old x_best.old,
      gamma.old,
    ) }
{
    let oracle = LowpassOracle::start(nwpass, nwstop, mdim, cur1, cur2, cur3, lp_sq, up_sq, sp_sq);
    let options = Options::new(max_iters, tolerance);
    match Ell::new_with_matrix(n, kappa) {
        Err(why) => code(why),
        Ok(ell) => optim_made(
            oracle, ell, options, rows, gamma, answer, marks, values, table, mq, xc, grad, grad_t,
            x_best,
        ),
    }
}
