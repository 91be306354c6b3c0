// The ellipsoid by factors (ell_stable.rs): the inverse of its matrix is L D Lᵀ; the diagonal holds D's inverse, L[i, j] stands above it at (j, i), scratch below it.
ghost use Rattle.std.specs.Prelude.{◌≡◌, true, ◌*◌, length, OnOk};
ghost use Rattle.numbers.specs.Refusal.{unless};
ghost use Rattle.numbers.specs.Arr.{is_dimension, tab};
ghost use Rattle.numbers.specs.F64.{◌⊘◌};
ghost use Rattle.oracles.specs.EllCommon.{centre_of, update_of};
ghost use Rattle.oracles.specs.EllStable.{stable_buffers, new_ell_stable_answer, inv_ml_g_of, inv_md_inv_ml_g_of, gg_t_of, omega_of, lowered, backward, t_start, with_tsq, stable_after, stable_work, stable_tests, stable_update_answer};
ghost use Rattle.oracles.specs.laws.EllStable.{less_columns, factors_after};
ghost use Rattle.oracles.specs.laws.EllStableCalls.{StableLong};

use crate::copy::copy_into;
use crate::ell_common::{CutStrategy, is_tiny, move_centre};
use crate::ell_factors::{backward, forward, omega_into, rank_one, scale_into};
use crate::matrix::Matrix;
use numbers::arr::{dimension, lengths};
use numbers::cut::{CutChoice, CutStatus, Params};
use numbers::ell_calc::EllCalc;
use numbers::refusal::Refusal;

// What is kept beside the factors mq and the centre xc. A type of its own with `Ell`'s fields: neither may be taken for the other, and one generic type would show its kind in each signature.
#[derive(Clone, Copy)]
pub struct EllStable {
    ndim: usize,
    pub kappa: f64,
    helper: EllCalc,
    pub tsq: f64,
}

#[derive(Clone, Copy)]
pub struct EllStableUpdate {
    pub ell: EllStable,
    pub answer: Result<CutStatus, Refusal>,
}

// What is written before the update is known to fail; omega. The slices stay apart, here and below, as in `Ell::update`.
fn prepare(
    n: usize,
    grad: &[f64],
    mq: &mut [f64],
    inv_ml_g: &mut [f64],
    inv_md_inv_ml_g: &mut [f64],
    gg_t: &mut [f64],
) -> f64
    requires { (is_dimension n ≡ true) × (length grad.now ≡ n) × (length mq.old ≡ n * n)
        × (length inv_ml_g.old ≡ n) × (length inv_md_inv_ml_g.old ≡ n) × (length gg_t.old ≡ n) }
    ensures { (result ≡ omega_of n mq.old grad.now)
        × (mq.new ≡ lowered n mq.old grad.now)
        × (inv_ml_g.new ≡ tab (inv_ml_g_of n mq.old grad.now) n)
        × (inv_md_inv_ml_g.new ≡ tab (inv_md_inv_ml_g_of n mq.old grad.now) n)
        × (gg_t.new ≡ tab (gg_t_of n mq.old grad.now) n) }
{
    copy_into(grad, inv_ml_g);
    forward(n, mq, inv_ml_g, gg_t);
    scale_into(Matrix { n, entries: mq }, inv_ml_g, inv_md_inv_ml_g);
    omega_into(inv_ml_g, inv_md_inv_ml_g, gg_t)
}

// The centre, and the factors, after a success.
fn succeed(
    n: usize,
    grad: &[f64],
    mq: &mut [f64],
    xc: &mut [f64],
    z: &[f64],
    g_t: &mut [f64],
    omega: f64,
    params: Params,
)
    requires { (is_dimension n ≡ true) × (length grad.now ≡ n) × (length mq.old ≡ n * n)
        × (length xc.old ≡ n) × (length z.now ≡ n) × (length g_t.old ≡ n) }
    ensures { (xc.new ≡ centre_of xc.old (params.rho ⊘ omega) (backward n mq.old z.now n))
        × (mq.new ≡ factors_after n mq.old z.now grad.now (t_start omega params.sigma))
        × (g_t.new ≡ tab (λ l. less_columns n mq.old grad.now l l) n) }
{
    copy_into(z, g_t);
    backward(Matrix { n, entries: mq }, g_t);
    move_centre(xc, params.rho / omega, g_t);
    let mu = params.sigma / (1.0 - params.sigma);
    copy_into(grad, g_t);
    rank_one(n, mq, z, g_t, omega / mu);
}

impl EllStable {
    // The state beside the factors and a centre of dimension n.
    // As `Ell::new_with_matrix`, into another type: a generic one would need a trait with both types' fields.
    pub fn new_with_matrix(n: usize, kappa: f64) -> Result<EllStable, Refusal>
        ensures { result ≡ new_ell_stable_answer n kappa }
    {
        Ok(EllStable {
            ndim: n,
            kappa,
            helper: EllCalc::new(n)?,
            tsq: 0.0,
        })
    }

    // The same ellipsoid with another kappa and tsq, and a status.
    fn with_status(self, kappa: f64, tsq: f64, status: CutStatus) -> EllStableUpdate
        ensures { result ≡ record { ell = with_tsq self kappa tsq; answer = Ok status } }
    {
        EllStableUpdate {
            ell: EllStable { kappa, tsq, ..self },
            answer: Ok(status),
        }
    }

    // The same ellipsoid, and why a call is refused.
    fn refused(self, why: Refusal) -> EllStableUpdate
        ensures { result ≡ record { ell = self; answer = Err why } }
    {
        EllStableUpdate {
            ell: self,
            answer: Err(why),
        }
    }

    // Refusals 1 and 2 of an update.
    fn check(
        self,
        grad: &[f64],
        mq: &[f64],
        xc: &[f64],
        inv_ml_g: &[f64],
        inv_md_inv_ml_g: &[f64],
        gg_t: &[f64],
        g_t: &[f64],
    ) -> Result<(), Refusal>
        ensures value { result ≡ unless (stable_tests self.ndim grad.now
            (stable_buffers mq.now xc.now inv_ml_g.now inv_md_inv_ml_g.now gg_t.now g_t.now)) (λ why place. Err why) (Ok tt) }
        ensures fit { OnOk result ((is_dimension self.ndim ≡ true) × (length grad.now ≡ self.ndim) × StableLong self.ndim
            (stable_buffers mq.now xc.now inv_ml_g.now inv_md_inv_ml_g.now gg_t.now g_t.now)) }
    {
        let n = self.ndim;
        dimension(n)?;
        let matrix = (grad.len() == n) & (mq.len() == n * n) & (xc.len() == n);
        let solved = matrix & (inv_ml_g.len() == n) & (inv_md_inv_ml_g.len() == n);
        lengths(solved & (gg_t.len() == n) & (g_t.len() == n))?;
        Ok(())
    }

    // The update with nothing left to refuse.
    fn update(
        self,
        strategy: CutStrategy,
        grad: &[f64],
        beta: CutChoice,
        mq: &mut [f64],
        xc: &mut [f64],
        inv_ml_g: &mut [f64],
        inv_md_inv_ml_g: &mut [f64],
        gg_t: &mut [f64],
        g_t: &mut [f64],
    ) -> EllStableUpdate
        requires { (is_dimension self.ndim ≡ true) × (length grad.now ≡ self.ndim)
            × StableLong self.ndim (stable_buffers mq.old xc.old inv_ml_g.old inv_md_inv_ml_g.old gg_t.old g_t.old) }
        ensures { (result, stable_buffers mq.new xc.new inv_ml_g.new inv_md_inv_ml_g.new gg_t.new g_t.new)
            ≡ stable_after self (update_of (stable_work self strategy grad.now beta
            (stable_buffers mq.old xc.old inv_ml_g.old inv_md_inv_ml_g.old gg_t.old g_t.old))) }
    {
        let n = self.ndim;
        let omega = prepare(n, grad, mq, inv_ml_g, inv_md_inv_ml_g, gg_t);
        if is_tiny(omega) {
            return self.with_status(self.kappa, self.tsq, CutStatus::NoEffect);
        }
        let tsq = self.kappa * omega;
        let helper = self.helper;
        let answer = strategy.calc(helper, beta, tsq);
        let status = answer.status;
        // named, so that a wrong test is refused for what it means
        let success = status == CutStatus::Success;
        let failed = !success;
        if failed {
            return self.with_status(self.kappa, tsq, status);
        }
        let params = answer.params;
        succeed(n, grad, mq, xc, inv_md_inv_ml_g, g_t, omega, params);
        self.with_status(self.kappa * params.delta, tsq, status)
    }

    // Cuts the ellipsoid by the half-space of `grad` and `beta`, or by the slab between two; the last four slices are scratch.
    pub fn update_core(
        self,
        strategy: CutStrategy,
        grad: &[f64],
        beta: CutChoice,
        mq: &mut [f64],
        xc: &mut [f64],
        inv_ml_g: &mut [f64],
        inv_md_inv_ml_g: &mut [f64],
        gg_t: &mut [f64],
        g_t: &mut [f64],
    ) -> EllStableUpdate
        ensures { (result, stable_buffers mq.new xc.new inv_ml_g.new inv_md_inv_ml_g.new gg_t.new g_t.new)
            ≡ stable_update_answer self strategy grad.now beta
            (stable_buffers mq.old xc.old inv_ml_g.old inv_md_inv_ml_g.old gg_t.old g_t.old) }
    {
        match self.check(grad, mq, xc, inv_ml_g, inv_md_inv_ml_g, gg_t, g_t) {
            Ok(()) => self.update(
                strategy,
                grad,
                beta,
                mq,
                xc,
                inv_ml_g,
                inv_md_inv_ml_g,
                gg_t,
                g_t,
            ),
            Err(why) => self.refused(why),
        }
    }
}
