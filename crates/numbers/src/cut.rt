// What a cut is, and what a calculator answers (cutting_plane.rs, ell_calc.rs).
ghost use Rattle.std.specs.Prelude.{◌≡◌};
ghost use Rattle.numbers.specs.Cut.{status_number};

// The bounds of a cut: one number or two.
#[derive(Clone, Copy)]
pub enum CutChoice {
    Single(f64),
    Parallel(f64, f64),
}

#[derive(Clone, Copy, PartialEq, Eq)]
pub enum CutStatus {
    Success = 0,
    NoSoln = 1,
    NoEffect = 2,
}

impl From<CutStatus> for u8 {
    ghost from_gives = { λ status n. n ≡ status_number status };

    fn from(status: CutStatus) -> u8 {
        status as u8
    }
}

// The step, the weight of the rank-one update and the factor of kappa.
#[derive(Clone, Copy)]
pub struct Params {
    pub rho: f64,
    pub sigma: f64,
    pub delta: f64,
}

#[derive(Clone, Copy)]
pub struct CutAnswer {
    pub status: CutStatus,
    pub params: Params,
}
