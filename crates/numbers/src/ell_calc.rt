// The cut calculators (`EllCalc` of ell_calc.rs), which test before they use the helper's formulas.
ghost use Rattle.std.specs.Prelude.{◌≡◌};
ghost use Rattle.std.specs.Float.Ieee.{lt};
ghost use Rattle.numbers.specs.EllCalc.{new_answer, single_instead, calc_single_or_parallel_bias_cut, calc_single_or_parallel_central_cut, calc_single_or_parallel_q, calc_parallel_bias_cut, calc_parallel_q, calc_parallel_central_cut, calc_bias_cut, calc_bias_cut_q, calc_central_cut};

use crate::arr::dimension;
use crate::cut::{CutAnswer, CutChoice, CutStatus, Params};
use crate::ell_calc_core::EllCalcCore;
use crate::refusal::Refusal;
use crate::sqrt::sqrt;

// What NoSoln and NoEffect carry.
const NO_SOLN: CutAnswer = CutAnswer {
    status: CutStatus::NoSoln,
    params: Params {
        rho: 0.0,
        sigma: 0.0,
        delta: 0.0,
    },
};

const NO_EFFECT: CutAnswer = CutAnswer {
    status: CutStatus::NoEffect,
    params: Params {
        rho: 0.0,
        sigma: 0.0,
        delta: 1.0,
    },
};

// The calculators of a search space of dimension n. Where `use_parallel_cut` is false a second bound is only tested, against the first or, in the central
// form, against zero, and otherwise ignored.
#[derive(Clone, Copy)]
pub struct EllCalc {
    pub n_f: f64,
    pub helper: EllCalcCore,
    // the Rust's switch; it has no value beside it
    pub use_parallel_cut: bool,
}

// Whether no number lies between the two bounds.
fn crossed(beta0: f64, beta1: f64) -> bool
    ensures { result ≡ lt beta1 beta0 }
{
    beta1 < beta0
}

// The calculators' bounds and tsq go one by one, as in the Rust: what a calculator takes is what its formula is of.
impl EllCalc {
    pub fn new(n: usize) -> Result<EllCalc, Refusal>
        ensures { result ≡ new_answer n }
    {
        dimension(n)?;
        let n_f = n as f64;
        let helper = EllCalcCore::new(n_f);
        Ok(EllCalc {
            n_f,
            helper,
            use_parallel_cut: true,
        })
    }

    // The three choices are written out: with the two calculators as closures each would be longer than its match.
    pub fn calc_single_or_parallel_bias_cut(self, beta: CutChoice, tsq: f64) -> CutAnswer
        ensures { result ≡ calc_single_or_parallel_bias_cut self beta tsq }
    {
        match beta {
            CutChoice::Parallel(beta0, beta1) => self.calc_parallel_bias_cut(beta0, beta1, tsq),
            CutChoice::Single(beta0) => self.calc_bias_cut(beta0, tsq),
        }
    }

    pub fn calc_single_or_parallel_central_cut(self, beta: CutChoice, tsq: f64) -> CutAnswer
        ensures { result ≡ calc_single_or_parallel_central_cut self beta tsq }
    {
        match beta {
            CutChoice::Parallel(_, beta1) => self.calc_parallel_central_cut(beta1, tsq),
            CutChoice::Single(_) => self.calc_central_cut(tsq),
        }
    }

    pub fn calc_single_or_parallel_q(self, beta: CutChoice, tsq: f64) -> CutAnswer
        ensures { result ≡ calc_single_or_parallel_q self beta tsq }
    {
        match beta {
            CutChoice::Parallel(beta0, beta1) => self.calc_parallel_q(beta0, beta1, tsq),
            CutChoice::Single(beta0) => self.calc_bias_cut_q(beta0, tsq),
        }
    }

    // Whether beta1 cuts nothing off, or is not to be used.
    fn single_instead(self, beta1: f64, tsq: f64) -> bool
        ensures { result ≡ single_instead self beta1 tsq }
    {
        (beta1 > 0.0 && tsq <= beta1 * beta1) || !self.use_parallel_cut
    }

    // The Rust's `calc_parallel_impl` stands here twice, in the plain form and in the q form: each is compiled into its caller. As one function with a switch it is
    // called, its answer is copied, and an update takes 7 % more at n = 2.
    pub fn calc_parallel_bias_cut(self, beta0: f64, beta1: f64, tsq: f64) -> CutAnswer
        ensures { result ≡ calc_parallel_bias_cut self beta0 beta1 tsq }
    {
        if crossed(beta0, beta1) {
            return NO_SOLN;
        }
        if self.single_instead(beta1, tsq) {
            return self.calc_bias_cut(beta0, tsq);
        }
        let b0b1 = beta0 * beta1;
        let eta = tsq + self.n_f * b0b1;
        let helper = self.helper;
        CutAnswer {
            status: CutStatus::Success,
            params: helper.calc_parallel_bias_cut_fast(beta0, beta1, tsq, b0b1, eta),
        }
    }

    pub fn calc_parallel_q(self, beta0: f64, beta1: f64, tsq: f64) -> CutAnswer
        ensures { result ≡ calc_parallel_q self beta0 beta1 tsq }
    {
        if crossed(beta0, beta1) {
            return NO_SOLN;
        }
        if self.single_instead(beta1, tsq) {
            return self.calc_bias_cut_q(beta0, tsq);
        }
        let b0b1 = beta0 * beta1;
        let eta = tsq + self.n_f * b0b1;
        if eta <= 0.0 {
            return NO_EFFECT;
        }
        let helper = self.helper;
        CutAnswer {
            status: CutStatus::Success,
            params: helper.calc_parallel_bias_cut_fast(beta0, beta1, tsq, b0b1, eta),
        }
    }

    pub fn calc_parallel_central_cut(self, beta1: f64, tsq: f64) -> CutAnswer
        ensures { result ≡ calc_parallel_central_cut self beta1 tsq }
    {
        if beta1 < 0.0 {
            return NO_SOLN;
        }
        if tsq <= beta1 * beta1 || !self.use_parallel_cut {
            return self.calc_central_cut(tsq);
        }
        let helper = self.helper;
        CutAnswer {
            status: CutStatus::Success,
            params: helper.calc_parallel_central_cut(beta1, tsq),
        }
    }

    pub fn calc_bias_cut(self, beta: f64, tsq: f64) -> CutAnswer
        ensures { result ≡ calc_bias_cut self beta tsq }
    {
        if tsq < beta * beta {
            return NO_SOLN;
        }
        let tau = sqrt(tsq);
        let helper = self.helper;
        CutAnswer {
            status: CutStatus::Success,
            params: helper.calc_bias_cut(beta, tau),
        }
    }

    pub fn calc_bias_cut_q(self, beta: f64, tsq: f64) -> CutAnswer
        ensures { result ≡ calc_bias_cut_q self beta tsq }
    {
        let tau = sqrt(tsq);
        if tau < beta {
            return NO_SOLN;
        }
        let eta = tau + self.n_f * beta;
        if eta <= 0.0 {
            return NO_EFFECT;
        }
        let helper = self.helper;
        CutAnswer {
            status: CutStatus::Success,
            params: helper.calc_bias_cut_fast(beta, tau, eta),
        }
    }

    pub fn calc_central_cut(self, tsq: f64) -> CutAnswer
        ensures { result ≡ calc_central_cut self tsq }
    {
        let helper = self.helper;
        CutAnswer {
            status: CutStatus::Success,
            params: helper.calc_central_cut(tsq),
        }
    }
}
