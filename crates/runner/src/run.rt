// A job from standard input is run by the steps of `cutting_plane_feas` (`Run::next`), and the text of each is handed to standard output as it comes.
ghost use Rattle.std.specs.Prelude.{◌≡◌, [], ◌*◌, length, take, replicate};
ghost use Rattle.oracles.specs.Ell.{ell_buffers};
ghost use Rattle.numbers.specs.F64.{0ᶠ};
ghost use Rattle.drivers.specs.Run.{next_answer};
ghost use Rattle.drivers.specs.Trace.{text_in};
ghost use Rattle.drivers.specs.Program.{program_text};
ghost use Rattle.drivers.specs.laws.Program.{RunHeld};
ghost use Rattle.drivers.specs.laws.Calls.{run_all_answer, run_all_text};
ghost use Rattle.streams.specs.Input.{Within, of_read};
ghost use Rattle.streams.specs.Output.{Hands, HandedOver};
ghost use Rattle.streams.specs.declared.output.Stream.TheVariants.{Stdout};
ghost use Rattle.runner.specs.Run.{Ran};

use crate::buffers::{Buffers, MAX_N};
use crate::handing::hand_text;
use drivers::input::INPUT_ROOM;
use drivers::run::{Printed, Run, open};
use std::io::{Read, Write};
use streams::output::{Console, Handed, Stream};
use streams::sink::Sink;

// The next step, whose text is handed over. The slices go one by one, as in drivers' cutting_plane.rt.
fn step<W: Sink, E: Write>(
    console: &mut Console<'_, W, E>,
    run: Run,
    table: &[f64],
    mq: &mut [f64],
    xc: &mut [f64],
    grad: &mut [f64],
    grad_t: &mut [f64],
    out: &mut [u8],
) -> Printed
    ensures out_after { (result, ell_buffers mq.new xc.new grad_t.new, grad.new, out.new)
        ≡ next_answer run table.now (ell_buffers mq.old xc.old grad_t.old) grad.old out.old }
    ensures handed { Hands W.Sink console.old console.new Stdout (text_in result.text out.new) }
{
    let printed = run.next(table, mq, xc, grad, grad_t, out);
    hand_text(console, Stream::Stdout, out, printed.text);
    printed
}

// Takes steps until there is no more to come, each text handed over; what the last one left.
fn run_all<W: Sink, E: Write>(
    console: &mut Console<'_, W, E>,
    first: Run,
    table: &[f64],
    mq: &mut [f64],
    xc: &mut [f64],
    grad: &mut [f64],
    grad_t: &mut [f64],
    out: &mut [u8],
) -> Printed
    ensures out_after { (result, ell_buffers mq.new xc.new grad_t.new, grad.new, out.new)
        ≡ run_all_answer first table.now (ell_buffers mq.old xc.old grad_t.old) grad.old out.old }
    ensures handed { Hands W.Sink console.old console.new Stdout
        (run_all_text first table.now (ell_buffers mq.old xc.old grad_t.old) grad.old out.old) }
{
    let mut printed = step(console, first, table, mq, xc, grad, grad_t, out);
    // no `for`: the step says whether there is more
    while printed.more {
        let run = printed.run;
        printed = step(console, run, table, mq, xc, grad, grad_t, out);
    }
    printed
}

// The run on the fronts of the arrays that its job fills, rows × n, n × n and n numbers, and scratch of zeros. Beside `jobfile`'s, which runs the whole driver, this one takes its steps.
fn run_sized<W: Sink, E: Write>(console: &mut Console<'_, W, E>, run: Run, buffers: &mut Buffers)
    requires { RunHeld run buffers.old.table buffers.old.xc buffers.old.mq }
    ensures { Hands W.Sink console.old console.new Stdout
        (let n = run.ell.ndim in run_all_text run (take (run.rows * n) buffers.old.table)
        (ell_buffers (take (n * n) buffers.old.mq) (take n buffers.old.xc) (replicate n 0ᶠ)) (replicate n 0ᶠ) buffers.old.out) }
{
    let n = run.n();
    let numbers = run.rows() * n;
    let square = n * n;
    // fixed memory (buffers.rt)
    let mut grad = [0.0f64; MAX_N];
    let mut grad_t = [0.0f64; MAX_N];
    let mq = &mut buffers.mq[..];
    let xc = &mut buffers.xc[..];
    run_all(
        console,
        run,
        &buffers.table[..numbers],
        &mut mq[..square],
        &mut xc[..n],
        &mut grad[..n],
        &mut grad_t[..n],
        &mut buffers.out,
    );
}

// Runs the job that these bytes record, in arrays that are long enough for every job: the program's text of them is what is handed over.
fn run_bytes<W: Sink, E: Write>(console: &mut Console<'_, W, E>, bytes: &[u8])
    ensures { Hands W.Sink console.old console.new Stdout (program_text bytes.now) }
{
    let mut buffers = Buffers::new();
    let opened = open(
        bytes,
        &mut buffers.table,
        &mut buffers.xc,
        &mut buffers.mq,
        &mut buffers.out,
    );
    match opened {
        Ok(run) => run_sized(console, run, &mut buffers),
        Err(text) => hand_text(console, Stream::Stdout, &buffers.out, text),
    }
}

pub fn run_input<W: Sink, E: Write>(output: &mut W, errors: &mut E, bytes: &[u8]) -> Handed
    ensures { HandedOver W.Sink output.old output.new result Stdout (program_text bytes.now) }
{
    let mut console = Console::new(output, errors);
    run_bytes(&mut console, bytes);
    console.end()
}

// Runs the job that was read, if the input could be read. The contract speaks of just these bytes and this answer of the read, where `Ran` can say only that there are some. `answer_read` of commands has
// this frame too: one function for both would take the work as a closure, whose contract would be longer than these lines.
fn run_read<W: Sink, E: Write>(console: &mut Console<'_, W, E>, bytes: &[u8], read: Option<usize>)
    requires { Within read (length bytes.now) }
    ensures { Hands W.Sink console.old console.new Stdout (of_read read bytes.now program_text []) }
{
    if let Some(count) = read {
        run_bytes(console, &bytes[..count]);
    }
}

// Runs the job that stands on standard input.
pub fn run_stdin<R: Read, W: Sink, E: Write>(
    input: &mut R,
    output: &mut W,
    errors: &mut E,
) -> Handed
    ensures { Ran W.Sink output.old output.new result }
{
    let mut writers = Console::new(output, errors);
    // fixed memory (buffers.rt)
    let mut bytes = [0u8; INPUT_ROOM];
    let read = writers.read_all(input, b"standard input", &mut bytes);
    run_read(&mut writers, &bytes, read);
    writers.end()
}
