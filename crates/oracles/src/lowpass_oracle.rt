// The lowpass oracle (lowpass_oracle.rs): its state, its start, and its two assessments of a point.
ghost use Rattle.std.specs.Prelude.{◌≡◌, false, ◌+◌, ◌*◌, ◌≤◌, length, pos, nat_abs};
ghost use Rattle.std.specs.Int.Signed.{lt_z};
ghost use Rattle.oracles.specs.Verdict.{ByFeasRule, ByOptimRule};
ghost use Rattle.oracles.specs.LowpassOracle.{fresh_cur, start_oracle, bands_fit, cursors_fit, has_band, group_number, group_side};
ghost use Rattle.oracles.specs.LowpassOracle.{offered, improved_of, assess_feas_answer, assess_optim_answer};

use crate::band_cut::gradient_into;
use crate::round_robin::RoundRobin;
use crate::scan_band::first_refusal;
use crate::table::{Rows, is_rows, table_fits};
use numbers::arr::is_dimension;
use numbers::cut::CutChoice;
use numbers::refusal::Refusal;

// The state of an oracle over a row table that the caller lends: pass rows are 0 to nwpass − 1, middle rows reach nwstop − 1, stop rows the end.
#[derive(Clone, Copy)]
pub struct LowpassOracle {
    // the Rust's flag; no value depends on it
    pub more_alt: bool,
    pub idx1: i32,
    pub nwpass: i32,
    pub nwstop: i32,
    pub lp_sq: f64,
    pub up_sq: f64,
    pub sp_sq: f64,
    pub idx2: i32,
    pub idx3: i32,
    pub fmax: f64,
    pub kmax: i32,
    pub rr1: RoundRobin,
    pub rr2: RoundRobin,
    pub rr3: RoundRobin,
}

// The group of constraints that a point breaks: of a band with the row that breaks it and whether it lies above its limit (a middle row has no upper one).
#[derive(Clone, Copy)]
pub enum Group {
    Pass(usize, bool),
    Stop(usize, bool),
    Middle(usize),
    Sign,
}

impl Group {
    // Its place in the order of the scans: pass, stop, middle, sign. No `From`: the row is left out.
    pub fn number(self) -> u8
        ensures { result ≡ group_number self }
    {
        match self {
            Group::Pass(_, _) => 0,
            Group::Stop(_, _) => 1,
            Group::Middle(_) => 2,
            Group::Sign => 3,
        }
    }

    // Whether the value lies above its limit; a middle row and x[0] lie below theirs.
    pub fn is_over(self) -> bool
        ensures { result ≡ group_side self }
    {
        matches!(self, Group::Pass(_, true) | Group::Stop(_, true))
    }
}

// The first group that a point breaks, and the betas of its cut.
#[derive(Clone, Copy)]
pub struct Cut {
    pub group: Group,
    pub beta: CutChoice,
}

// The oracle after an assessment, as it came where the call is refused. The verdict is none where nothing is broken.
#[derive(Clone, Copy)]
pub struct Assessed {
    pub oracle: LowpassOracle,
    pub verdict: Result<Option<Cut>, Refusal>,
}

// What `assess_optim` says: the betas of the improving cut of a feasible point, or the broken group's cut.
#[derive(Clone, Copy)]
pub enum OptimVerdict {
    Improved(CutChoice),
    Cut(Cut),
}

// `gamma` is the caller's sp_sq, after the call.
#[derive(Clone, Copy)]
pub struct AssessedOptim {
    pub oracle: LowpassOracle,
    pub gamma: f64,
    pub verdict: Result<OptimVerdict, Refusal>,
}

// Whether the cursor's band is lo .. hi − 1.
fn has_band(rr: RoundRobin, lo: i32, hi: i32) -> bool
    ensures { result ≡ has_band rr lo hi }
{
    (rr.lo == lo) & (rr.hi == hi)
}

// Where a fresh cursor stands. What is no band is refused by every call, whatever stands here.
fn fresh_cur(fresh: Result<RoundRobin, Refusal>) -> i32
    ensures { result ≡ fresh_cur fresh }
{
    fresh.map_or(-1, |rr| rr.cur)
}

impl LowpassOracle {
    // An oracle that has assessed nothing yet, over the rows 0 to mdim − 1: each idx before its band, the cursors where they are told to stand.
    // Its numbers come one by one, as a job and C have them.
    pub fn start(
        nwpass: i32,
        nwstop: i32,
        mdim: i32,
        cur1: i32,
        cur2: i32,
        cur3: i32,
        lp_sq: f64,
        up_sq: f64,
        sp_sq: f64,
    ) -> LowpassOracle
        ensures { result ≡ start_oracle nwpass nwstop mdim cur1 cur2 cur3 lp_sq up_sq sp_sq }
    {
        let fresh1 = RoundRobin::new_range(0, nwpass);
        let fresh2 = RoundRobin::new_range(nwpass, nwstop);
        let fresh3 = RoundRobin::new_range(nwstop, mdim);
        LowpassOracle {
            more_alt: true,
            idx1: fresh_cur(fresh1),
            nwpass,
            nwstop,
            lp_sq,
            up_sq,
            sp_sq,
            idx2: fresh_cur(fresh2),
            idx3: fresh_cur(fresh3),
            fmax: f64::NEG_INFINITY,
            kmax: -1,
            rr1: RoundRobin {
                cur: cur1,
                lo: 0,
                hi: nwpass,
            },
            rr2: RoundRobin {
                cur: cur2,
                lo: nwpass,
                hi: nwstop,
            },
            rr3: RoundRobin {
                cur: cur3,
                lo: nwstop,
                hi: mdim,
            },
        }
    }

    // Refusal 3: the row count, the bands, and the cursors' lo and hi.
    pub fn bands_fit(self, rows: usize) -> bool
        ensures { result ≡ bands_fit self rows }
    {
        if !is_rows(rows) {
            return false;
        }
        let mdim = rows as i32;
        let lo = self.nwpass;
        let hi = self.nwstop;
        let rr1 = self.rr1;
        let rr2 = self.rr2;
        let rr3 = self.rr3;
        (0 <= lo)
            & (lo <= hi)
            & (hi <= mdim)
            & has_band(rr1, 0, lo)
            & has_band(rr2, lo, hi)
            & has_band(rr3, hi, mdim)
    }

    // Refusal 4.
    pub fn cursors_fit(self) -> bool
        ensures { result ≡ cursors_fit self }
    {
        let rr1 = self.rr1;
        let rr2 = self.rr2;
        let rr3 = self.rr3;
        rr1.is_at() & rr2.is_at() & rr3.is_at()
    }

    // With the offered sp_sq.
    fn offered(mut self, gamma: f64) -> LowpassOracle
        ensures { result ≡ offered self gamma }
    {
        self.sp_sq = gamma;
        self
    }

    // Tries pass, stop and middle rows and then the sign of x[0]; on a break `grad` is the cut's gradient. The second `ensures` is demand 3: the verdict
    // depends on no cursor, and on nothing that an earlier point left in the oracle. A public call takes slices: `Rows` is made of them where they fit.
    pub fn assess_feas(
        self,
        n: usize,
        rows: usize,
        table: &[f64],
        x: &[f64],
        grad: &mut [f64],
    ) -> Assessed
        ensures grad_after { (result, grad.new) ≡ assess_feas_answer self n rows table.now x.now grad.old }
        ensures by_feas_rule { ByFeasRule self n rows table.now x.now grad.old result }
    {
        let lengths = table_fits(n, rows, table.len(), x.len()) & (grad.len() == n);
        let tests = first_refusal(
            is_dimension(n),
            lengths,
            self.bands_fit(rows),
            self.cursors_fit(),
        );
        match tests {
            Ok(()) => self.assess(Rows { n, table, x }, grad),
            Err(why) => Assessed {
                oracle: self,
                verdict: Err(why),
            },
        }
    }

    // The same with the offered sp_sq, which is stored; a feasible point gives the cut of its largest stop value, which becomes the caller's number.
    // The match is on what was found, and each of its three ways has its own numbers.
    pub fn assess_optim(
        self,
        gamma: f64,
        n: usize,
        rows: usize,
        table: &[f64],
        x: &[f64],
        grad: &mut [f64],
    ) -> AssessedOptim
        ensures grad_after { (result, grad.new) ≡ assess_optim_answer self gamma n rows table.now x.now grad.old }
        ensures by_optim_rule { ByOptimRule self gamma n rows table.now x.now grad.old result }
    {
        let after = self.offered(gamma);
        let assessed = after.assess_feas(n, rows, table, x, grad);
        let oracle = assessed.oracle;
        let verdict = assessed.verdict;
        match verdict {
            Ok(found) => match found {
                None => self.improved(gamma, oracle, Rows { n, table, x }, grad),
                Some(cut) => AssessedOptim {
                    oracle,
                    gamma,
                    verdict: Ok(OptimVerdict::Cut(cut)),
                },
            },
            Err(why) => AssessedOptim {
                oracle: self,
                gamma,
                verdict: Err(why),
            },
        }
    }

    // What a feasible point gives: the row of the largest stop value, or refusal 6 and the oracle as it came.
    fn improved(
        self,
        gamma: f64,
        after: LowpassOracle,
        rows: Rows,
        grad: &mut [f64],
    ) -> AssessedOptim
        requires { (2 ≤ rows.n) × (rows.n ≤ 32) × (lt_z after.kmax (pos 0) ≡ false → nat_abs after.kmax * rows.n + rows.n ≤ length rows.table.now) × (length grad.old ≡ rows.n) }
        ensures { (result, grad.new) ≡ improved_of self gamma after rows.entry.n rows.entry.table.now grad.old }
    {
        if after.kmax < 0 {
            return AssessedOptim {
                oracle: self,
                gamma,
                verdict: Err(Refusal::NoStopValue),
            };
        }
        gradient_into(rows, after.kmax as usize, true, grad);
        AssessedOptim {
            oracle: after,
            gamma: after.fmax,
            verdict: Ok(OptimVerdict::Improved(CutChoice::Parallel(0.0, after.fmax))),
        }
    }
}
