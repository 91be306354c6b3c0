// `jobfile file` and `jobfile limits`: a job is read with its tags in any order, and its record handed over as the job writer makes it, with the limits that are given.
ghost use Rattle.std.specs.Prelude.{◌≡◌};
ghost use Rattle.commands.specs.Output.{Writes, WroteOnly};
ghost use Rattle.commands.specs.File.{with_limits, file_written};
ghost use Rattle.commands.specs.laws.File.{fronts_filed};

use crate::arguments::Limits;
use crate::sound_job::SoundJob;
use crate::taking::take_or_refuse;
use drivers::job::Job;
use drivers::trace::Source;
use drivers::write_job::{LONGEST_JOB, write_job};
use runner::buffers::Buffers;
use runner::handing::hand_front;
use std::io::Write;
use streams::output::{Console, Handed, Stream};
use streams::sink::Sink;

fn with_limits(limits: Limits, job: Job) -> Job
    ensures { result ≡ with_limits limits job }
{
    Job {
        lp_sq: limits.lp.unwrap_or(job.lp_sq),
        up_sq: limits.up.unwrap_or(job.up_sq),
        sp_sq: limits.sp.unwrap_or(job.sp_sq),
        ..job
    }
}

// The record of a job whose rows, point and matrix stand at the fronts of arrays.
fn hand_job<W: Sink, E: Write>(console: &mut Console<'_, W, E>, sound: SoundJob, buffers: &Buffers)
    ensures { Writes W.Sink console.old console.new (fronts_filed sound.job buffers.now.table buffers.now.xc buffers.now.mq) }
{
    let job = sound.job;
    let n = job.n;
    let numbers = job.rows * n;
    let square = n * n;
    // fixed memory, since there is no heap
    let mut out = [0u8; LONGEST_JOB];
    let written = write_job(
        job,
        &buffers.table[..numbers],
        &buffers.xc[..n],
        &buffers.mq[..square],
        &mut out,
    );
    if let Ok(count) = written {
        hand_front(console, Stream::Stdout, &out, count);
    }
}

// Files the job that these bytes record.
pub(crate) fn file_job<W: Sink, E: Write>(
    console: &mut Console<'_, W, E>,
    bytes: &[u8],
    limits: Limits,
)
    ensures { Writes W.Sink console.old console.new (file_written limits bytes.now) }
{
    let mut buffers = Buffers::new();
    let taken = take_or_refuse(console, Source::Only, bytes, &mut buffers);
    if let Some(sound) = taken {
        let job = with_limits(limits, sound.job);
        hand_job(console, SoundJob { job }, &buffers);
    }
}

pub fn file_input<W: Sink, E: Write>(
    output: &mut W,
    errors: &mut E,
    bytes: &[u8],
    limits: Limits,
) -> Handed
    ensures { WroteOnly W.Sink output.old output.new result (file_written limits bytes.now) }
{
    let mut console = Console::new(output, errors);
    file_job(&mut console, bytes, limits);
    console.end()
}
