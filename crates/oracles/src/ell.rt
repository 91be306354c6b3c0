// The ellipsoid { x | (x − xc)ᵀ mq⁻¹ (x − xc) ≤ kappa } (ell.rs). The caller lends the matrix, the centre and the scratch.
ghost use Rattle.std.specs.Prelude.{◌≡◌, true, ◌*◌, ◌≤◌, ◌<◌, length, OnOk};
ghost use Rattle.numbers.specs.Refusal.{unless};
ghost use Rattle.numbers.specs.Arr.{is_dimension};
ghost use Rattle.oracles.specs.Ell.{EllBuffers, ell_buffers, new_ell_answer, rank_one, with_tsq, ell_work, change_of, ell_changed, ell_tests, ell_update_answer};
ghost use Rattle.oracles.specs.EllCommon.{change, update_of};
ghost use Rattle.oracles.specs.laws.Ell.{row_lowered, all_lowered, row_mirrored, mirrored};
ghost use Rattle.oracles.specs.laws.EllCalls.{EllLong};

use crate::ell_common::{CutStrategy, is_tiny, move_centre};
use crate::matrix::Matrix;
use numbers::arr::{dimension, dot_mv_into, dot_zip, lengths};
use numbers::cut::{CutChoice, CutStatus};
use numbers::ell_calc::EllCalc;
use numbers::refusal::Refusal;

// What is kept beside the matrix mq and the centre xc.
#[derive(Clone, Copy)]
pub struct Ell {
    pub ndim: usize,
    pub kappa: f64,
    helper: EllCalc,
    pub tsq: f64,
}

// What an update changes beside the slices, and what it came to. The answer lies between the numbers: read as a pair by one load of 16 bytes they would wait for both stores of 8.
#[derive(Clone, Copy)]
pub struct EllChange {
    pub kappa: f64,
    pub answer: Result<CutStatus, Refusal>,
    pub tsq: f64,
}

#[derive(Clone, Copy)]
pub struct EllUpdate {
    pub ell: Ell,
    pub answer: Result<CutStatus, Refusal>,
}

// Row i, lent as a part of the matrix: its entries 0 to i.
fn lower_row(row: &mut [f64], r_qg: f64, gt: &[f64], i: usize)
    requires { (i < length row.old) × (length row.old ≡ length gt.now) × (length row.old ≤ 32) }
    ensures { row.new ≡ row_lowered row.old r_qg gt.now i }
{
    for j in 0..i + 1 {
        row[j] = row[j] - r_qg * gt[j];
    }
}

fn lower_rows(n: usize, mq: &mut [f64], ratio: f64, gt: &[f64])
    requires { (n ≤ 32) × (length mq.old ≡ n * n) × (length gt.now ≡ n) }
    ensures { mq.new ≡ all_lowered n ratio gt.now mq.old }
{
    for i in 0..n {
        let at = i * n;
        let end = at + n;
        lower_row(&mut mq[at..end], ratio * gt[i], gt, i);
    }
}

// Row i's entries before the diagonal, copied into column i.
fn mirror_row(n: usize, mq: &mut [f64], i: usize)
    requires { (n ≤ 32) × (length mq.old ≡ n * n) × (i < n) }
    ensures { mq.new ≡ row_mirrored n mq.old i }
{
    for j in 0..i {
        let entry = Matrix { n, entries: mq }.at(i, j);
        mq[j * n + i] = entry;
    }
}

fn mirror(n: usize, mq: &mut [f64])
    requires { (n ≤ 32) × (length mq.old ≡ n * n) }
    ensures { mq.new ≡ mirrored n mq.old }
{
    for i in 0..n {
        mirror_row(n, mq, i);
    }
}

// mq − ratio × gt gtᵀ.
fn shrink(n: usize, mq: &mut [f64], ratio: f64, gt: &[f64])
    requires { (n ≤ 32) × (length mq.old ≡ n * n) × (length gt.now ≡ n) }
    ensures { mq.new ≡ rank_one n ratio gt.now mq.old }
{
    lower_rows(n, mq, ratio, gt);
    mirror(n, mq);
}

// Another kappa and tsq, and a status.
fn with_status(kappa: f64, tsq: f64, status: CutStatus) -> EllChange
    ensures { (b : EllBuffers) → change_of result b ≡ change (Ok status) kappa tsq b }
{
    EllChange {
        kappa,
        answer: Ok(status),
        tsq,
    }
}

impl Ell {
    // The state beside a matrix and a centre of dimension n.
    pub fn new_with_matrix(n: usize, kappa: f64) -> Result<Ell, Refusal>
        ensures { result ≡ new_ell_answer n kappa }
    {
        Ok(Ell {
            ndim: n,
            kappa,
            helper: EllCalc::new(n)?,
            tsq: 0.0,
        })
    }

    // The ellipsoid after a change, to be used with the matrix that the change left: its two numbers come from another type.
    pub fn changed(self, change: EllChange) -> Ell
        ensures { result ≡ with_tsq self change.kappa change.tsq }
    {
        Ell {
            kappa: change.kappa,
            tsq: change.tsq,
            ..self
        }
    }

    // Nothing changed, and why a call is refused: two of this type's numbers in another type.
    fn refused(self, why: Refusal) -> EllChange
        ensures { result ≡ record { kappa = self.kappa; answer = Err why; tsq = self.tsq } }
    {
        EllChange {
            kappa: self.kappa,
            answer: Err(why),
            tsq: self.tsq,
        }
    }

    // Refusals 1 and 2 of an update.
    fn check(self, grad: &[f64], mq: &[f64], xc: &[f64], grad_t: &[f64]) -> Result<(), Refusal>
        ensures value { result ≡ unless (ell_tests self.ndim grad.now (ell_buffers mq.now xc.now grad_t.now)) (λ why place. Err why) (Ok tt) }
        ensures fit { OnOk result ((is_dimension self.ndim ≡ true) × (length grad.now ≡ self.ndim) × EllLong self.ndim (ell_buffers mq.now xc.now grad_t.now)) }
    {
        let n = self.ndim;
        dimension(n)?;
        let matrix = (grad.len() == n) & (mq.len() == n * n);
        lengths(matrix & (xc.len() == n) & (grad_t.len() == n))?;
        Ok(())
    }

    // The update with nothing left to refuse. Its parameters are the public call's, here and in `EllStable`. The slices stay apart: a struct of `&mut`s would have each
    // function promise that it keeps them.
    fn update(
        self,
        strategy: CutStrategy,
        grad: &[f64],
        beta: CutChoice,
        mq: &mut [f64],
        xc: &mut [f64],
        grad_t: &mut [f64],
    ) -> EllChange
        requires { (is_dimension self.ndim ≡ true) × (length grad.now ≡ self.ndim) × EllLong self.ndim (ell_buffers mq.old xc.old grad_t.old) }
        ensures { change_of result (ell_buffers mq.new xc.new grad_t.new)
            ≡ update_of (ell_work self strategy grad.now beta (ell_buffers mq.old xc.old grad_t.old)) }
    {
        let n = self.ndim;
        let _ = dot_mv_into(n, mq, grad, grad_t); // the lengths fit
        let omega = dot_zip(grad, grad_t);
        if is_tiny(omega) {
            return with_status(self.kappa, self.tsq, CutStatus::NoEffect);
        }
        let tsq = self.kappa * omega;
        let helper = self.helper;
        let answer = strategy.calc(helper, beta, tsq);
        let status = answer.status;
        if status != CutStatus::Success {
            return with_status(self.kappa, tsq, status);
        }
        let params = answer.params;
        move_centre(xc, params.rho / omega, grad_t);
        shrink(n, mq, params.sigma / omega, grad_t);
        with_status(self.kappa * params.delta, tsq, status)
    }

    // What `update_core` changes beside the slices, in a small form: a run keeps the rest, and copies no ellipsoid. The matrix that it leaves belongs to `changed` of this.
    pub fn change(
        self,
        strategy: CutStrategy,
        grad: &[f64],
        beta: CutChoice,
        mq: &mut [f64],
        xc: &mut [f64],
        grad_t: &mut [f64],
    ) -> EllChange
        ensures { (ell_changed self result, ell_buffers mq.new xc.new grad_t.new)
            ≡ ell_update_answer self strategy grad.now beta (ell_buffers mq.old xc.old grad_t.old) }
    {
        match self.check(grad, mq, xc, grad_t) {
            Ok(()) => self.update(strategy, grad, beta, mq, xc, grad_t),
            Err(why) => self.refused(why),
        }
    }

    // Cuts the ellipsoid by the half-space of `grad` and `beta`, or by the slab between two; grad_t is scratch.
    pub fn update_core(
        self,
        strategy: CutStrategy,
        grad: &[f64],
        beta: CutChoice,
        mq: &mut [f64],
        xc: &mut [f64],
        grad_t: &mut [f64],
    ) -> EllUpdate
        ensures { (result, ell_buffers mq.new xc.new grad_t.new)
            ≡ ell_update_answer self strategy grad.now beta (ell_buffers mq.old xc.old grad_t.old) }
    {
        let change = self.change(strategy, grad, beta, mq, xc, grad_t);
        EllUpdate {
            ell: self.changed(change),
            answer: change.answer,
        }
    }
}
