// `jobfile belongs`: whether an answer belongs to a job. The job is taken whole before the answer is looked at.
ghost use Rattle.std.specs.Prelude.{◌≡◌, ◌*◌, ◌≤◌, length, take};
ghost use Rattle.commands.specs.Output.{Writes};
ghost use Rattle.commands.specs.Belongs.{judged_written};
ghost use Rattle.commands.specs.laws.Belongs.{said};

use crate::sound_job::SoundJob;
use drivers::belongs::belongs;
use drivers::input::take_answer;
use numbers::refusal::Refusal;
use runner::buffers::{Buffers, MAX_N};
use runner::handing::hand_text;
use std::io::Write;
use streams::output::{Console, Stream};
use streams::sink::Sink;

fn say<W: Sink, E: Write>(console: &mut Console<'_, W, E>, belonging: Result<bool, Refusal>)
    ensures { Writes W.Sink console.old console.new (said belonging) }
{
    if let Ok(is_so) = belonging {
        if is_so {
            console.hand(Stream::Stdout, b"yes\n");
        } else {
            console.hand(Stream::Stdout, b"no\n");
        }
    }
}

// Whether the answer that these bytes record belongs to a job that was read, its table and its point at the fronts of two arrays.
pub(crate) fn judge_answer<W: Sink, E: Write>(
    console: &mut Console<'_, W, E>,
    taken: SoundJob,
    buffers: &mut Buffers,
    bytes: &[u8],
)
    ensures { Writes W.Sink console.old console.new (let job = taken.job in judged_written job (take (job.rows * job.n) buffers.old.table) (take job.n buffers.old.xc) bytes.now) }
{
    let job = taken.job;
    let n = job.n;
    let numbers = job.rows * n;
    // fixed memory, since there is no heap
    let mut point = [0.0f64; MAX_N];
    let mut grad = [0.0f64; MAX_N];
    let read = take_answer(n, bytes, &mut point, &mut buffers.out);
    match read {
        Ok(answer) => say(
            console,
            belongs(
                job,
                &buffers.table[..numbers],
                &buffers.xc[..n],
                answer,
                &point[..n],
                &mut grad[..n],
            ),
        ),
        Err(text) => hand_text(console, Stream::Stderr, &buffers.out, text),
    }
}
