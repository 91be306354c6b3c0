// The assessment of a point with nothing left to refuse: pass, stop and middle rows, then the sign of x[0], up to what is broken.
ghost use Rattle.std.specs.Prelude.{◌≡◌, ◌<◌, length};
ghost use Rattle.oracles.specs.LowpassOracle.{after_pass, after_stop, after_middle, assess_sign, assess_middle, assess_stop, assess_of};
ghost use Rattle.oracles.specs.laws.Assess.{Assessable};

use crate::band_cut::{band_beta, gradient_into};
use crate::lowpass_oracle::{Assessed, Cut, Group, LowpassOracle};
use crate::round_robin::RoundRobin;
use crate::scan::Violation;
use crate::scan_band::scan_lent;
use crate::table::Rows;
use numbers::cut::CutChoice;

impl LowpassOracle {
    // The oracle after the pass scan.
    fn after_pass(mut self, last: i32, rr: RoundRobin) -> LowpassOracle
        ensures { result ≡ after_pass self last rr }
    {
        self.more_alt = true;
        self.idx1 = last;
        self.rr1 = rr;
        self
    }

    // After the stop scan.
    fn after_stop(mut self, last: i32, rr: RoundRobin, fmax: f64, kmax: i32) -> LowpassOracle
        ensures { result ≡ after_stop self last rr fmax kmax }
    {
        self.idx3 = last;
        self.fmax = fmax;
        self.kmax = kmax;
        self.rr3 = rr;
        self
    }

    // After the middle scan.
    fn after_middle(mut self, last: i32, rr: RoundRobin, more_alt: bool) -> LowpassOracle
        ensures { result ≡ after_middle self last rr more_alt }
    {
        self.more_alt = more_alt;
        self.idx2 = last;
        self.rr2 = rr;
        self
    }

    // The last test: x[0] below zero.
    fn assess_sign(self, x: &[f64], grad: &mut [f64]) -> Assessed
        requires { (0 < length x.now) × (0 < length grad.old) }
        ensures { (result, grad.new) ≡ assess_sign self x.now grad.old }
    {
        let x0 = x[0];
        if x0 < 0.0 {
            grad.fill(0.0);
            grad[0] = -1.0;
            return Assessed {
                oracle: self,
                verdict: Ok(Some(Cut {
                    group: Group::Sign,
                    beta: CutChoice::Single(-x0),
                })),
            };
        }
        Assessed {
            oracle: self,
            verdict: Ok(None),
        }
    }

    // The three groups are written out: each has limits, state and a next step of its own. What all three ask is one word, `Assessable`; it speaks of the lent
    // gradient too, which no struct could hold without a promise to keep it.
    // The middle rows, then the sign.
    fn assess_middle(self, rows: Rows, grad: &mut [f64]) -> Assessed
        requires { Assessable self rows.n rows.table.now rows.x.now grad.old }
        ensures { (result, grad.new) ≡ assess_middle self rows.entry.n rows.entry.table.now rows.entry.x.now grad.old }
    {
        let start = self.rr2;
        let swept = scan_lent(rows, start, 0.0, None);
        let scan = swept.scan;
        let rr = swept.cursor;
        let viol = scan.viol;
        match viol {
            None => {
                let after = self.after_middle(scan.last, rr, false);
                after.assess_sign(rows.x, grad)
            }
            Some(
                Violation {
                    row,
                    value,
                    is_over,
                },
            ) => {
                gradient_into(rows, row, is_over, grad);
                let beta = band_beta(value, is_over, 0.0, None);
                Assessed {
                    oracle: self.after_middle(scan.last, rr, self.more_alt),
                    verdict: Ok(Some(Cut {
                        group: Group::Middle(row),
                        beta,
                    })),
                }
            }
        }
    }

    // The stop rows, then the rest.
    fn assess_stop(self, rows: Rows, grad: &mut [f64]) -> Assessed
        requires { Assessable self rows.n rows.table.now rows.x.now grad.old }
        ensures { (result, grad.new) ≡ assess_stop self rows.entry.n rows.entry.table.now rows.entry.x.now grad.old }
    {
        let upper = Some(self.sp_sq);
        let start = self.rr3;
        let swept = scan_lent(rows, start, 0.0, upper);
        let scan = swept.scan;
        let rr = swept.cursor;
        let viol = scan.viol;
        match viol {
            None => {
                let after = self.after_stop(scan.last, rr, scan.fmax, scan.kmax);
                after.assess_middle(rows, grad)
            }
            Some(
                Violation {
                    row,
                    value,
                    is_over,
                },
            ) => {
                gradient_into(rows, row, is_over, grad);
                let beta = band_beta(value, is_over, 0.0, upper);
                Assessed {
                    oracle: self.after_stop(scan.last, rr, f64::NEG_INFINITY, -1),
                    verdict: Ok(Some(Cut {
                        group: Group::Stop(row, is_over),
                        beta,
                    })),
                }
            }
        }
    }

    // The pass rows, then the rest.
    pub(crate) fn assess(self, rows: Rows, grad: &mut [f64]) -> Assessed
        requires { Assessable self rows.n rows.table.now rows.x.now grad.old }
        ensures { (result, grad.new) ≡ assess_of self rows.entry.n rows.entry.table.now rows.entry.x.now grad.old }
    {
        let lower = self.lp_sq;
        let upper = Some(self.up_sq);
        let start = self.rr1;
        let swept = scan_lent(rows, start, lower, upper);
        let scan = swept.scan;
        let rr = swept.cursor;
        let after = self.after_pass(scan.last, rr);
        let viol = scan.viol;
        match viol {
            None => after.assess_stop(rows, grad),
            Some(
                Violation {
                    row,
                    value,
                    is_over,
                },
            ) => {
                gradient_into(rows, row, is_over, grad);
                let beta = band_beta(value, is_over, lower, upper);
                Assessed {
                    oracle: after,
                    verdict: Ok(Some(Cut {
                        group: Group::Pass(row, is_over),
                        beta,
                    })),
                }
            }
        }
    }
}
