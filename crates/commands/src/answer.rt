// `jobfile answer`: a job is read as `filterrun` reads it and run, and the record of its answer is handed over.
ghost use Rattle.std.specs.Prelude.{◌≡◌, true, ◌*◌, ◌≤◌, length};
ghost use Rattle.numbers.specs.Arr.{is_dimension};
ghost use Rattle.oracles.specs.Ell.{ell_buffers};
ghost use Rattle.streams.specs.Output.{Hands};
ghost use Rattle.streams.specs.declared.output.Stream.TheVariants.{Stdout};
ghost use Rattle.drivers.specs.Answer.{answer_bytes};
ghost use Rattle.drivers.specs.laws.JobRuns.{JobSlices};
ghost use Rattle.commands.specs.Output.{Writes, WroteOnly};
ghost use Rattle.commands.specs.Answer.{answer_written};
ghost use Rattle.commands.specs.laws.Answer.{run_written, fronts_written};

use crate::sound_job::SoundJob;
use crate::taking::take_or_refuse;
use drivers::answer::{Answer, write_answer};
use drivers::cutting_plane_feas::cutting_plane_feas;
use drivers::trace::Source;
use oracles::ell::Ell;
use runner::buffers::{Buffers, MAX_N};
use runner::handing::hand_front;
use std::io::Write;
use streams::output::{Console, Handed, Stream};
use streams::sink::Sink;

fn hand_record<W: Sink, E: Write>(
    console: &mut Console<'_, W, E>,
    n: usize,
    answer: Answer,
    point: &[f64],
    out: &mut [u8],
)
    requires { (is_dimension n ≡ true) × (length point.now ≡ n) × (268 ≤ length out.old) }
    ensures { Hands W.Sink console.old console.new Stdout (answer_bytes answer point.now) }
{
    let written = write_answer(n, answer, point, out);
    if let Ok(count) = written {
        hand_front(console, Stream::Stdout, out, count);
    }
}

// The run in slices of the job's own lengths, which go one by one, as in drivers' cutting_plane.rt.
fn run_sized<W: Sink, E: Write>(
    console: &mut Console<'_, W, E>,
    taken: SoundJob,
    table: &[f64],
    mq: &mut [f64],
    xc: &mut [f64],
    grad: &mut [f64],
    grad_t: &mut [f64],
    best: &mut [f64],
    out: &mut [u8],
)
    requires { JobSlices taken.job table.now (ell_buffers mq.old xc.old grad_t.old) grad.old
        × (length best.old ≡ taken.job.n) × (268 ≤ length out.old) }
    ensures { Writes W.Sink console.old console.new (run_written taken.job table.now (ell_buffers mq.old xc.old grad_t.old) grad.old) }
{
    let job = taken.job;
    let oracle = job.oracle();
    let options = job.options;
    if let Ok(ell) = Ell::new_with_matrix(job.n, job.kappa) {
        let run = cutting_plane_feas(
            oracle, ell, options, job.rows, table, mq, xc, grad, grad_t, best,
        );
        let answer = run.answer;
        if let Ok(ended) = answer {
            hand_record(console, job.n, ended, best, out);
        }
    }
}

// The run in the fronts, which the job fills, of arrays that hold every job, and scratch of zeros, all in fixed memory, since there is no heap. runner's `run_sized` lends the same fronts, but to
// single steps, whose text it hands over: one function for both would take what is lent as a closure, with a contract longer than its body.
fn run_job<W: Sink, E: Write>(
    console: &mut Console<'_, W, E>,
    taken: SoundJob,
    buffers: &mut Buffers,
)
    ensures { Writes W.Sink console.old console.new (fronts_written taken.job buffers.old.table buffers.old.xc buffers.old.mq) }
{
    let job = taken.job;
    let n = job.n;
    let numbers = job.rows * n;
    let square = n * n;
    let mut grad = [0.0f64; MAX_N];
    let mut grad_t = [0.0f64; MAX_N];
    let mut best = [0.0f64; MAX_N];
    let mq = &mut buffers.mq[..];
    let xc = &mut buffers.xc[..];
    run_sized(
        console,
        taken,
        &buffers.table[..numbers],
        &mut mq[..square],
        &mut xc[..n],
        &mut grad[..n],
        &mut grad_t[..n],
        &mut best[..n],
        &mut buffers.out,
    )
}

// Answers the job that these bytes record.
pub(crate) fn answer_job<W: Sink, E: Write>(console: &mut Console<'_, W, E>, bytes: &[u8])
    ensures { Writes W.Sink console.old console.new (answer_written bytes.now) }
{
    let mut buffers = Buffers::new();
    let taken = take_or_refuse(console, Source::Only, bytes, &mut buffers);
    if let Some(job) = taken {
        run_job(console, job, &mut buffers);
    }
}

// `run_input` of runner has this frame too: one function for both would take the work as a closure, whose contract would be longer than these three lines.
pub fn answer_input<W: Sink, E: Write>(output: &mut W, errors: &mut E, bytes: &[u8]) -> Handed
    ensures { WroteOnly W.Sink output.old output.new result (answer_written bytes.now) }
{
    let mut console = Console::new(output, errors);
    answer_job(&mut console, bytes);
    console.end()
}
