// The helper of the cut calculators (`EllCalcCore` of ell_calc.rs): its formulas test nothing.
ghost use Rattle.std.specs.Prelude.{◌≡◌};
ghost use Rattle.numbers.specs.EllCalcCore.{core_new, core_parallel_bias_cut_fast, core_parallel_bias_cut, core_parallel_central_cut, core_bias_cut_fast, core_bias_cut, core_central_cut};

use crate::cut::Params;
use crate::sqrt::sqrt;

// Six numbers, worked out once from n.
#[derive(Clone, Copy)]
pub struct EllCalcCore {
    pub n_f: f64,
    pub n_plus_1: f64,
    pub half_n: f64,
    pub inv_n: f64,
    pub cst1: f64,
    pub cst2: f64,
}

impl EllCalcCore {
    pub fn new(n_f: f64) -> EllCalcCore
        ensures { result ≡ core_new n_f }
    {
        let n_plus_1 = n_f + 1.0;
        let half_n = n_f / 2.0;
        let inv_n = 1.0 / n_f;
        let n_sq = n_f * n_f;
        let cst0 = 1.0 / (n_f + 1.0);
        let cst1 = n_sq / (n_sq - 1.0);
        let cst2 = 2.0 * cst0;
        EllCalcCore {
            n_f,
            n_plus_1,
            half_n,
            inv_n,
            cst1,
            cst2,
        }
    }

    pub fn calc_parallel_bias_cut_fast(
        self,
        beta0: f64,
        beta1: f64,
        tsq: f64,
        b0b1: f64,
        eta: f64,
    ) -> Params
        ensures { result ≡ core_parallel_bias_cut_fast self beta0 beta1 tsq b0b1 eta }
    {
        let b0sq = beta0 * beta0;
        let b1sq = beta1 * beta1;
        let zeta0 = tsq - b0sq;
        let zeta1 = tsq - b1sq;
        let temp = self.half_n * (b1sq - b0sq);
        let xi = sqrt(zeta0 * zeta1 + temp * temp);
        let bsum = beta0 + beta1;
        let bsumsq = bsum * bsum;
        let sigma = 2.0 * eta / (tsq + b0b1 + self.half_n * bsumsq + xi);
        let rho = sigma * (beta0 + beta1) / 2.0;
        let delta = self.cst1 * ((zeta0 + zeta1) / 2.0 + xi / self.n_f) / tsq;
        Params { rho, sigma, delta }
    }

    pub fn calc_parallel_bias_cut(self, beta0: f64, beta1: f64, tsq: f64) -> Params
        ensures { result ≡ core_parallel_bias_cut self beta0 beta1 tsq }
    {
        let b0b1 = beta0 * beta1;
        let eta = tsq + self.n_f * b0b1; // not above zero where no smaller ellipsoid results
        self.calc_parallel_bias_cut_fast(beta0, beta1, tsq, b0b1, eta)
    }

    pub fn calc_parallel_central_cut(self, beta1: f64, tsq: f64) -> Params
        ensures { result ≡ core_parallel_central_cut self beta1 tsq }
    {
        let b1sq = beta1 * beta1;
        let a1sq = b1sq / tsq;
        let half_val = self.half_n * a1sq;
        let root = half_val + sqrt(1.0 - a1sq + half_val * half_val);
        let r_plus_1 = root + 1.0;
        let rho = beta1 / r_plus_1;
        let sigma = 2.0 / r_plus_1;
        let delta = root / (root - self.inv_n);
        Params { rho, sigma, delta }
    }

    pub fn calc_bias_cut_fast(self, beta: f64, tau: f64, eta: f64) -> Params
        ensures { result ≡ core_bias_cut_fast self beta tau eta }
    {
        let rho = eta / self.n_plus_1;
        let sigma = 2.0 * rho / (tau + beta);
        let alpha = beta / tau;
        let delta = self.cst1 * (1.0 - alpha * alpha);
        Params { rho, sigma, delta }
    }

    pub fn calc_bias_cut(self, beta: f64, tau: f64) -> Params
        ensures { result ≡ core_bias_cut self beta tau }
    {
        let eta = tau + self.n_f * beta; // not above zero where no smaller ellipsoid results
        self.calc_bias_cut_fast(beta, tau, eta)
    }

    pub fn calc_central_cut(self, tsq: f64) -> Params
        ensures { result ≡ core_central_cut self tsq }
    {
        let sigma = self.cst2;
        let rho = sqrt(tsq) / self.n_plus_1;
        let delta = self.cst1;
        Params { rho, sigma, delta }
    }
}
