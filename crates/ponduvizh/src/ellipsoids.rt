// The updates of both ellipsoids. `strategy` is 0 for a bias cut, 1 for a central one, any other number the q form; `beta1` counts where `parallel` is true.
// `status` becomes 0 for Success, 1 for NoSoln, 2 for NoEffect, `kappa` and `tsq` those of the ellipsoid after the update.
ghost use Rattle.std.specs.Prelude.{◌≡◌};
ghost use Rattle.oracles.specs.Ell.{ell_buffers, new_ell_answer};
ghost use Rattle.oracles.specs.EllStable.{stable_buffers, new_ell_stable_answer};
ghost use Rattle.ponduvizh.specs.Exported.{strategy_of, beta_of, status_or, update_end, update_numbers, ell_exported, stable_exported};

use crate::numeric::code;
use numbers::cut::{CutChoice, CutStatus};
use numbers::refusal::{Refusal, number};
use oracles::ell::Ell;
use oracles::ell_common::CutStrategy;
use oracles::ell_stable::EllStable;

fn strategy_of(k: u64) -> CutStrategy
    ensures { result ≡ strategy_of k }
{
    if k == 0 {
        return CutStrategy::BiasCut;
    }
    if k == 1 {
        return CutStrategy::CentralCut;
    }
    CutStrategy::Q
}

fn beta_of(parallel: bool, beta0: f64, beta1: f64) -> CutChoice
    ensures { result ≡ beta_of parallel beta0 beta1 }
{
    if parallel {
        return CutChoice::Parallel(beta0, beta1);
    }
    CutChoice::Single(beta0)
}

fn status_or(answer: Result<CutStatus, Refusal>, old: u64) -> u64
    ensures { result ≡ status_or answer old }
{
    answer.map_or(old, |status| u8::from(status) as u64)
}

// What an update says beside the slices.
fn put_update(
    answer: Result<CutStatus, Refusal>,
    new_kappa: f64,
    new_tsq: f64,
    status: &mut u64,
    kappa: &mut f64,
    tsq: &mut f64,
) -> u64
    ensures { (result, status.new, kappa.new, tsq.new) ≡ update_numbers answer new_kappa new_tsq status.old }
{
    *status = status_or(answer, *status);
    *kappa = new_kappa;
    *tsq = new_tsq;
    number(&answer) as u64
}

#[unsafe(no_mangle)]
pub extern "C" fn ponduvizh_ell_update(
    n: usize,
    strategy: u64,
    parallel: bool,
    beta0: f64,
    beta1: f64,
    status: &mut u64,
    kappa: &mut f64,
    tsq: &mut f64,
    grad: &[f64],
    mq: &mut [f64],
    xc: &mut [f64],
    grad_t: &mut [f64],
) -> u64
    ensures { update_end result status.new kappa.new tsq.new
        (ell_buffers mq.new xc.new grad_t.new)
        ≡ ell_exported (new_ell_answer n kappa.old)
        (strategy_of strategy) grad.now (beta_of parallel beta0 beta1) kappa.old tsq.old status.old
        (ell_buffers mq.old xc.old grad_t.old) }
{
    match Ell::new_with_matrix(n, *kappa) {
        Err(why) => code(why),
        Ok(made) => {
            let mut ell = made;
            ell.tsq = *tsq;
            let how = strategy_of(strategy);
            let beta = beta_of(parallel, beta0, beta1);
            let u = ell.update_core(how, grad, beta, mq, xc, grad_t);
            let after = u.ell;
            let answer = u.answer;
            put_update(answer, after.kappa, after.tsq, status, kappa, tsq)
        }
    }
}

#[unsafe(no_mangle)]
pub extern "C" fn ponduvizh_ell_stable_update(
    n: usize,
    strategy: u64,
    parallel: bool,
    beta0: f64,
    beta1: f64,
    status: &mut u64,
    kappa: &mut f64,
    tsq: &mut f64,
    grad: &[f64],
    mq: &mut [f64],
    xc: &mut [f64],
    inv_ml_g: &mut [f64],
    inv_md_inv_ml_g: &mut [f64],
    gg_t: &mut [f64],
    g_t: &mut [f64],
) -> u64
    ensures { update_end result status.new kappa.new tsq.new
        (stable_buffers mq.new xc.new inv_ml_g.new inv_md_inv_ml_g.new gg_t.new g_t.new)
        ≡ stable_exported (new_ell_stable_answer n kappa.old)
        (strategy_of strategy) grad.now (beta_of parallel beta0 beta1) kappa.old tsq.old status.old
        (stable_buffers mq.old xc.old inv_ml_g.old inv_md_inv_ml_g.old gg_t.old g_t.old) }
{
    match EllStable::new_with_matrix(n, *kappa) {
        Err(why) => code(why),
        Ok(made) => {
            let mut ell = made;
            ell.tsq = *tsq;
            let how = strategy_of(strategy);
            let beta = beta_of(parallel, beta0, beta1);
            let u = ell.update_core(
                how,
                grad,
                beta,
                mq,
                xc,
                inv_ml_g,
                inv_md_inv_ml_g,
                gg_t,
                g_t,
            );
            let after = u.ell;
            let answer = u.answer;
            put_update(answer, after.kappa, after.tsq, status, kappa, tsq)
        }
    }
}
