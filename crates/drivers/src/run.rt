// A run of a job, a step at a time, with its text: what `filterrun` is made of.
ghost use Rattle.std.specs.Prelude.{◌≡◌, false, ◌≤◌, ◌<◌, length, Err};
ghost use Rattle.oracles.specs.Ell.{ell_buffers};
ghost use Rattle.drivers.specs.Trace.{room};
ghost use Rattle.drivers.specs.Run.{new_run_answer, step_printed, next_answer, opened_job, open_answer};

use crate::answer::Answer;
use crate::cutting_plane::{Options, check};
use crate::cutting_plane_feas::{feas_ended, feas_step, goes_on};
use crate::input::take_job;
use crate::job::Job;
use crate::text::Writer;
use crate::trace::{ROOM, Source, Text, refused_line};
use numbers::refusal::Refusal;
use oracles::ell::Ell;
use oracles::lowpass_oracle::LowpassOracle;

// A run of `cutting_plane_feas` between two steps: niter is the next one's number. Only `open` makes one. The caller keeps the slices.
#[derive(Clone, Copy)]
pub struct Run {
    oracle: LowpassOracle,
    ell: Ell,
    options: Options,
    rows: usize,
    niter: u16,
}

// The run after a step, its text, and whether there is more to come.
// `more` is a flag: the run is promised after the last step and after a refusal too, so that an Option would lose it, and an enum would hold it in both variants.
#[derive(Clone, Copy)]
pub struct Printed {
    pub run: Run,
    pub more: bool,
    pub text: Text,
}

impl Run {
    // A job's run, before its first step.
    pub(crate) fn new(job: Job) -> Result<Run, Refusal>
        ensures { result ≡ new_run_answer job }
    {
        let oracle = job.oracle();
        let options = job.options;
        let ell = Ell::new_with_matrix(job.n, job.kappa)?;
        Ok(Run {
            oracle,
            ell,
            options,
            rows: job.rows,
            niter: 0,
        })
    }

    // Its point's dimension, and its table's rows: what the slices' lengths are made of.
    pub fn n(self) -> usize
        ensures { result ≡ self.ell.ndim }
    {
        let ell = self.ell;
        ell.ndim
    }

    pub fn rows(self) -> usize
        ensures { result ≡ self.rows }
    {
        self.rows
    }

    // The run as it came, and why the call is refused.
    fn refused(self, why: Refusal) -> Printed
        ensures { result ≡ record { run = self; more = false; text = Err why } }
    {
        Printed {
            run: self,
            more: false,
            text: Err(why),
        }
    }

    // The run after a step, before the one of this number.
    fn after_step(self, oracle: LowpassOracle, ell: Ell, niter: u16) -> Run
        ensures { result ≡ record { oracle = oracle; ell = ell; options = self.options; rows = self.rows; niter = niter } }
    {
        Run {
            oracle,
            ell,
            niter,
            ..self
        }
    }

    // A step, with its text, and the answer's where it is the last. The slices go one by one, as in cutting_plane.rt.
    fn step(
        self,
        table: &[f64],
        mq: &mut [f64],
        xc: &mut [f64],
        grad: &mut [f64],
        grad_t: &mut [f64],
        out: &mut [u8],
    ) -> Printed
        requires { (self.niter < self.options.max_iters) × (room ≤ length out.old) }
        ensures { (result, ell_buffers mq.new xc.new grad_t.new, grad.new, out.new)
            ≡ step_printed self table.now (ell_buffers mq.old xc.old grad_t.old) grad.old out.old }
    {
        let oracle = self.oracle;
        let ell = self.ell;
        let options = self.options;
        let step = feas_step(oracle, ell, self.rows, table, mq, xc, grad, grad_t);
        let after = step.oracle;
        let mut space = ell;
        space.kappa = step.kappa;
        space.tsq = step.tsq;
        let answer = step.answer;
        let mut text = Writer::new(out, 0);
        text.put_step(self.niter, answer);
        if goes_on(answer, space.tsq, options.tolerance) {
            return Printed {
                run: self.after_step(after, space, self.niter + 1),
                more: true,
                text: Ok(text.end()),
            };
        }
        text.put_ended(feas_ended(answer, self.niter));
        Printed {
            run: self.after_step(after, space, self.niter),
            more: false,
            text: Ok(text.end()),
        }
    }

    // Takes the next step of `cutting_plane_feas` and writes its text to the front of `out`: a cut's line, the last line, or both.
    pub fn next(
        self,
        table: &[f64],
        mq: &mut [f64],
        xc: &mut [f64],
        grad: &mut [f64],
        grad_t: &mut [f64],
        out: &mut [u8],
    ) -> Printed
        ensures { (result, ell_buffers mq.new xc.new grad_t.new, grad.new, out.new)
            ≡ next_answer self table.now (ell_buffers mq.old xc.old grad_t.old) grad.old out.old }
    {
        let oracle = self.oracle;
        let ell = self.ell;
        let options = self.options;
        let n = ell.ndim;
        let rows = self.rows;
        let tested = check(
            oracle,
            n,
            rows,
            table,
            mq,
            xc,
            grad,
            grad_t,
            out.len(),
            ROOM,
        );
        match tested {
            Err(why) => self.refused(why),
            Ok(()) => {
                if self.niter < options.max_iters {
                    return self.step(table, mq, xc, grad, grad_t, out);
                }
                let none = Answer {
                    found: false,
                    steps: self.niter,
                };
                let mut text = Writer::new(out, 0);
                text.put_last(none);
                Printed {
                    run: self,
                    more: false,
                    text: Ok(text.end()),
                }
            }
        }
    }
}

// ---- the run of a program's input

fn open_job(job: Job, out: &mut [u8]) -> Result<Run, Text>
    ensures { (result, out.new) ≡ opened_job job out.old }
{
    let run = Run::new(job);
    // By hand: of an `out` that `map_err`'s closure writes to, nothing is known afterwards. So in input.rt.
    match run {
        Ok(made) => Ok(made),
        Err(why) => Err(refused_line(Source::Only, why, 0, out)),
    }
}

// Takes a job from a program's input and makes its run; or writes the line that refuses it to the front of `out`.
pub fn open(
    bytes: &[u8],
    table: &mut [f64],
    xc: &mut [f64],
    mq: &mut [f64],
    out: &mut [u8],
) -> Result<Run, Text>
    ensures { (result, table.new, xc.new, mq.new, out.new)
        ≡ open_answer bytes.now table.old xc.old mq.old out.old }
{
    let taken = take_job(Source::Only, bytes, table, xc, mq, out);
    // By hand: a text that is lost on the way is then a line that the prover refuses for what it says, and not for a step more.
    match taken {
        Ok(job) => open_job(job, out),
        Err(text) => Err(text),
    }
}
