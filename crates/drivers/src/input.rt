// A program's input: a record of at most 65,536 bytes is read, or the line that refuses it is written.
ghost use Rattle.std.specs.Prelude.{◌≡◌};
ghost use Rattle.drivers.specs.Input.{take_job_answer, take_answer_answer};

use crate::answer::{Answer, read_answer};
use crate::job::{Job, read_job};
use crate::trace::{Source, Text, refused_line};
use numbers::refusal::Refusal;

// A program's input has at most so many bytes. It is read with room for one more, so that a long one is known.
pub const LONGEST: usize = 65536;

pub const INPUT_ROOM: usize = 65537;

// Reads a job: its rows to the front of `table`, its point to that of xc, its matrix to that of mq; or writes the line that refuses it to the front of `out`.
pub fn take_job(
    source: Source,
    bytes: &[u8],
    table: &mut [f64],
    xc: &mut [f64],
    mq: &mut [f64],
    out: &mut [u8],
) -> Result<Job, Text>
    ensures { (result, table.new, xc.new, mq.new, out.new)
        ≡ take_job_answer source bytes.now table.old xc.old mq.old out.old }
{
    if LONGEST < bytes.len() {
        return Err(refused_line(source, Refusal::Room, LONGEST, out));
    }
    let read = read_job(bytes, table, xc, mq);
    // By hand, as in run.rt's `open_job`.
    match read {
        Ok(job) => Ok(job),
        Err(fault) => Err(refused_line(source, fault.why, fault.place, out)),
    }
}

// Reads an answer to a job of dimension n; a point goes to the front of `point`. Or writes the line that refuses it to the front of `out`.
// Beside `take_job`: each reads another record into other slices, and what they share is a test and a line.
pub fn take_answer(
    n: usize,
    bytes: &[u8],
    point: &mut [f64],
    out: &mut [u8],
) -> Result<Answer, Text>
    ensures { (result, point.new, out.new) ≡ take_answer_answer n bytes.now point.old out.old }
{
    let source = Source::Answer;
    if bytes.len() > LONGEST {
        return Err(refused_line(source, Refusal::Room, LONGEST, out));
    }
    let read = read_answer(n, bytes, point);
    // By hand, as in run.rt's `open_job`.
    match read {
        Ok(answer) => Ok(answer),
        Err(flaw) => Err(refused_line(source, flaw.why, flaw.place, out)),
    }
}
