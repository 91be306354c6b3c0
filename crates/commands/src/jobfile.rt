// The program `jobfile`: its arguments, its inputs, and its commands. `JobfileRan` says what is handed over.
ghost use Rattle.std.specs.Prelude.{◌≡◌, ◌*◌, ◌≤◌, length, take};
ghost use Rattle.streams.specs.Input.{Within, of_read};
ghost use Rattle.commands.specs.Output.{nothing_written, Writes};
ghost use Rattle.commands.specs.Answer.{answer_written};
ghost use Rattle.commands.specs.Belongs.{judged_written};
ghost use Rattle.commands.specs.File.{file_written};
ghost use Rattle.commands.specs.Jobfile.{Wrote, JobfileRan};
ghost use Rattle.commands.specs.declared.arguments.Command.TheVariants.{Answer, Belongs, File, Usage};
ghost use Rattle.commands.specs.laws.Jobfile.{Writing, Judged, JobJudged, FileJudged};

use crate::answer::answer_job;
use crate::arguments::{Command, Limits, command_of};
use crate::belongs::judge_answer;
use crate::file::file_job;
use crate::sound_job::SoundJob;
use crate::taking::take_or_refuse;
use drivers::input::INPUT_ROOM;
use drivers::trace::Source;
use runner::buffers::Buffers;
use std::env::FillError;
use std::io::{Read, Write};
use std::rt::{Env, Files};
use streams::output::{Console, Handed, Stream};
use streams::sink::Sink;

fn print_usage<W: Sink, E: Write>(console: &mut Console<'_, W, E>)
    ensures { Writing W.Sink console.old console.new (Wrote Usage) }
{
    console.hand(
        Stream::Stderr,
        b"usage: jobfile answer < JOB > ANSWER\n       jobfile belongs JOB ANSWER\n       jobfile file < JOB > NEWJOB\n       jobfile limits LP UP SP < JOB > NEWJOB\nLP, UP, SP: the 16 hexadecimal digits of a float, or - for the job's own\n",
    );
}

// Four functions read and then go on, each with other slices: one function for them would take a closure, and its contract would be longer than their bodies.
// Their inputs are in fixed memory, since there is no heap.
// What each makes of what was read, if it could be read, is a function of its own (`answer_read` and its like), to which the bytes and the read's answer are handed: its contract speaks of just these, where
// that of the one which reads can say only that there are some. The two go side by side, with the fact that the count lies within: a struct of them would be made and opened at each.
fn answer_read<W: Sink, E: Write>(
    console: &mut Console<'_, W, E>,
    bytes: &[u8],
    read: Option<usize>,
)
    requires { Within read (length bytes.now) }
    ensures { Writes W.Sink console.old console.new (of_read read bytes.now answer_written nothing_written) }
{
    if let Some(count) = read {
        answer_job(console, &bytes[..count]);
    }
}

fn run_answer<I: Read, W: Sink, E: Write>(input: &mut I, console: &mut Console<'_, W, E>)
    ensures { Writing W.Sink console.old console.new (Wrote Answer) }
{
    let mut bytes = [0u8; INPUT_ROOM];
    let read = console.read_all(input, b"standard input", &mut bytes);
    answer_read(console, &bytes, read);
}

fn file_read<W: Sink, E: Write>(
    console: &mut Console<'_, W, E>,
    bytes: &[u8],
    read: Option<usize>,
    limits: Limits,
)
    requires { Within read (length bytes.now) }
    ensures { Writes W.Sink console.old console.new (of_read read bytes.now (file_written limits) nothing_written) }
{
    if let Some(count) = read {
        file_job(console, &bytes[..count], limits);
    }
}

fn run_file<I: Read, W: Sink, E: Write>(
    input: &mut I,
    console: &mut Console<'_, W, E>,
    limits: Limits,
)
    ensures { Writing W.Sink console.old console.new (Wrote (File limits)) }
{
    let mut bytes = [0u8; INPUT_ROOM];
    let read = console.read_all(input, b"standard input", &mut bytes);
    file_read(console, &bytes, read, limits);
}

// ---- belongs

fn judge_read<W: Sink, E: Write>(
    console: &mut Console<'_, W, E>,
    taken: SoundJob,
    buffers: &mut Buffers,
    bytes: &[u8],
    read: Option<usize>,
)
    requires { Within read (length bytes.now) }
    ensures { Writes W.Sink console.old console.new (let job = taken.job in of_read read bytes.now
        (judged_written job (take (job.rows * job.n) buffers.old.table) (take job.n buffers.old.xc)) nothing_written) }
{
    if let Some(count) = read {
        judge_answer(console, taken, buffers, &bytes[..count]);
    }
}

// The answer's file is looked at when the job has been taken.
fn judge_file<R: Files + Env, W: Sink, E: Write>(
    rt: &R,
    console: &mut Console<'_, W, E>,
    taken: SoundJob,
    buffers: &mut Buffers,
)
    ensures { Writing W.Sink console.old console.new (let job = taken.job in Judged job (take (job.rows * job.n) buffers.old.table) (take job.n buffers.old.xc)) }
{
    let mut bytes = [0u8; INPUT_ROOM];
    let read = console.read_argument(rt, 3, &mut bytes);
    judge_read(console, taken, buffers, &bytes, read);
}

fn belongs_job<R: Files + Env, W: Sink, E: Write>(
    rt: &R,
    console: &mut Console<'_, W, E>,
    bytes: &[u8],
)
    ensures { Writing W.Sink console.old console.new (JobJudged bytes.now) }
{
    let mut buffers = Buffers::new();
    let taken = take_or_refuse(console, Source::Job, bytes, &mut buffers);
    if let Some(job) = taken {
        judge_file(rt, console, job, &mut buffers);
    }
}

fn belongs_read<R: Files + Env, W: Sink, E: Write>(
    rt: &R,
    console: &mut Console<'_, W, E>,
    bytes: &[u8],
    read: Option<usize>,
)
    requires { Within read (length bytes.now) }
    ensures { Writing W.Sink console.old console.new (FileJudged read bytes.now) }
{
    if let Some(count) = read {
        belongs_job(rt, console, &bytes[..count]);
    }
}

fn run_belongs<R: Files + Env, W: Sink, E: Write>(rt: &R, console: &mut Console<'_, W, E>)
    ensures { Writing W.Sink console.old console.new (Wrote Belongs) }
{
    let mut bytes = [0u8; INPUT_ROOM];
    let read = console.read_argument(rt, 2, &mut bytes);
    belongs_read(rt, console, &bytes, read);
}

// ---- the program

fn run_command<R: Files + Env, I: Read, W: Sink, E: Write>(
    rt: &R,
    input: &mut I,
    console: &mut Console<'_, W, E>,
    command: Command,
)
    ensures { Writing W.Sink console.old console.new (Wrote command) }
{
    match command {
        Command::Answer => run_answer(input, console),
        Command::Belongs => run_belongs(rt, console),
        Command::File(limits) => run_file(input, console, limits),
        Command::Usage => print_usage(console),
    }
}

// How many arguments there are, the program's own name among them. Whether one is there is asked with no room for it.
fn count_arguments<R: Env>(rt: &R) -> usize {
    let mut none = [0u8; 0];
    for i in 0..usize::MAX {
        if let Err(FillError::NotPresent) = rt.arg(i, &mut none) {
            return i;
        }
    }
    usize::MAX
}

// Argument i, in fixed memory; none of its bytes where it is not there or has more than 16, as a file's name may have. No word that a command is known by, and no limit, is longer.
fn argument<'a, R: Env>(rt: &R, i: usize, room: &'a mut [u8; 16]) -> &'a [u8] {
    let length = rt.arg(i, room).unwrap_or(0);
    &room[..length]
}

pub fn run_arguments<R: Files + Env, I: Read, W: Sink, E: Write>(
    rt: &R,
    input: &mut I,
    output: &mut W,
    errors: &mut E,
) -> Handed
    ensures { JobfileRan W.Sink output.old output.new result }
{
    let mut first = [0u8; 16];
    let mut second = [0u8; 16];
    let mut third = [0u8; 16];
    let mut fourth = [0u8; 16];
    let command = command_of(
        count_arguments(rt),
        argument(rt, 1, &mut first),
        argument(rt, 2, &mut second),
        argument(rt, 3, &mut third),
        argument(rt, 4, &mut fourth),
    );
    let mut console = Console::new(output, errors);
    run_command(rt, input, &mut console, command);
    console.end()
}
