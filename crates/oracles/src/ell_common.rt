// What both ellipsoids share: the choice of a calculator, and the move of the centre.
ghost use Rattle.std.specs.Prelude.{◌≡◌, length};
ghost use Rattle.oracles.specs.EllCommon.{calc_of, is_tiny, centre_of};

use numbers::cut::{CutAnswer, CutChoice};
use numbers::ell_calc::EllCalc;

// Which calculator of `EllCalc` an update uses. An enum and no closure: C and the lists name it by a number.
#[derive(Clone, Copy)]
pub enum CutStrategy {
    BiasCut,
    CentralCut,
    Q,
}

// Whether omega has no effect; NaN goes on.
pub(crate) fn is_tiny(omega: f64) -> bool
    ensures { result ≡ is_tiny omega }
{
    omega <= f64::MIN_POSITIVE
}

impl CutStrategy {
    // The calculator's answer.
    pub fn calc(self, helper: EllCalc, beta: CutChoice, tsq: f64) -> CutAnswer
        ensures { result ≡ calc_of self helper beta tsq }
    {
        match self {
            CutStrategy::BiasCut => helper.calc_single_or_parallel_bias_cut(beta, tsq),
            CutStrategy::CentralCut => helper.calc_single_or_parallel_central_cut(beta, tsq),
            CutStrategy::Q => helper.calc_single_or_parallel_q(beta, tsq),
        }
    }
}

// xc − step × dir, entry by entry.
pub(crate) fn move_centre(xc: &mut [f64], step: f64, dir: &[f64])
    requires { length xc.old ≡ length dir.now }
    ensures { xc.new ≡ centre_of xc.old step dir.now }
{
    for i in 0..dir.len() {
        xc[i] = xc[i] - step * dir[i];
    }
}
