// What a run says in numbers: `answer` is found, the steps and the oracle's more_alt; `marks` the cursors of pass, middle and stop, idx1 to idx3 and kmax; `values` sp_sq, fmax, kappa and tsq.
ghost use Rattle.std.specs.Prelude.{◌≡◌};
ghost use Rattle.ponduvizh.specs.ExportedRuns.{marks_of, values_of, answer_of, run_numbers, numbers_after, as_optim, numbers_by};

use drivers::answer::Answer;
use drivers::cutting_plane_optim::OptimStop;
use numbers::refusal::Refusal;
use oracles::ell::Ell;
use oracles::lowpass_oracle::LowpassOracle;

pub(crate) fn put_marks(oracle: LowpassOracle, marks: &mut [i32; 7])
    ensures { marks.new ≡ marks_of oracle }
{
    let rr1 = oracle.rr1;
    let rr2 = oracle.rr2;
    let rr3 = oracle.rr3;
    *marks = [
        rr1.cur,
        rr2.cur,
        rr3.cur,
        oracle.idx1,
        oracle.idx2,
        oracle.idx3,
        oracle.kmax,
    ];
}

fn put_values(oracle: LowpassOracle, ell: Ell, values: &mut [f64; 4])
    ensures { values.new ≡ values_of oracle ell }
{
    *values = [oracle.sp_sq, oracle.fmax, ell.kappa, ell.tsq];
}

fn put_answer(ended: Answer, oracle: LowpassOracle, answer: &mut [u64; 3])
    ensures { answer.new ≡ answer_of ended oracle }
{
    *answer = [
        ended.found as u64,
        ended.steps as u64,
        oracle.more_alt as u64,
    ];
}

// What a run that began says.
fn put_state(
    ended: Answer,
    oracle: LowpassOracle,
    ell: Ell,
    answer: &mut [u64; 3],
    marks: &mut [i32; 7],
    values: &mut [f64; 4],
)
    ensures { run_numbers answer.new marks.new values.new ≡ numbers_after ended oracle ell }
{
    put_answer(ended, oracle, answer);
    put_marks(oracle, marks);
    put_values(oracle, ell, values);
}

// What a run says with this answer.
pub(crate) fn put_run(
    ended: Result<Answer, OptimStop>,
    oracle: LowpassOracle,
    ell: Ell,
    answer: &mut [u64; 3],
    marks: &mut [i32; 7],
    values: &mut [f64; 4],
)
    ensures { run_numbers answer.new marks.new values.new
        ≡ numbers_by ended oracle ell (run_numbers answer.old marks.old values.old) }
{
    match ended {
        Ok(whole) => put_state(whole, oracle, ell, answer, marks, values),
        Err(stop) => match stop {
            OptimStop::Halted(halted) => put_state(halted, oracle, ell, answer, marks, values),
            OptimStop::Refused(_) => {}
        },
    }
}

pub(crate) fn as_optim(ended: Result<Answer, Refusal>) -> Result<Answer, OptimStop>
    ensures { result ≡ as_optim ended }
{
    ended.map_err(OptimStop::Refused)
}
