// Operations 142 and 150 to 152: the values of `Options`, the readers and the writer.
use crate::packed::{bytes_at, put_output, put_written, words_of};
use crate::places::half_of;
use drivers::answer::{Answer, read_answer, write_answer};
use drivers::cutting_plane::Options;
use drivers::job::{Job, read_job};
use lists::inputs::{Inputs, Span, fit};
use lists::pushes::Got;
use lists::rooms::{Rooms, front, part_mut, plus};
use lists::signed::word_of;
use lists::tally::Unreplayed;
use numbers::refusal::Fault;

// The number and the place of a refusal.
pub(crate) fn put_fault(got: &mut Got, fault: Fault) {
    got.word(u8::from(fault.why) as u64);
    got.word(fault.place as u64);
}

fn put_options(got: &mut Got, options: Options) {
    got.word(options.max_iters as u64);
    got.float(options.tolerance);
}

// What a job has beside its slices, with all that its oracle starts with.
fn put_job(got: &mut Got, job: Job) {
    let oracle = job.oracle();
    got.words(&[0, 0, job.n as u64, job.rows as u64]);
    got.word(word_of(job.nwpass));
    got.word(word_of(job.nwstop));
    got.float(job.lp_sq);
    got.float(job.up_sq);
    got.state(oracle);
    got.bands(oracle);
    got.float(job.kappa);
    put_options(got, job.options);
}

// Operation 142 has no inputs.
pub(crate) fn replay_default(inputs: &Inputs<'_>, got: &mut Got) -> Result<(), Unreplayed> {
    fit(inputs.count == 0)?;
    put_options(got, Options::default());
    Ok(())
}

pub(crate) fn replay_read_job(
    inputs: &Inputs<'_>,
    rooms: &mut Rooms,
    got: &mut Got,
) -> Result<(), Unreplayed> {
    let len = inputs.size(0);
    let bytes = Span {
        at: 4,
        len: words_of(len),
    };
    let table = bytes.then(inputs.size(1));
    let xc = table.then(inputs.size(2));
    let mq = xc.then(inputs.size(3));
    fit(mq.end() == inputs.count)?;
    inputs.fill(&mut rooms.a, true, table);
    inputs.fill(&mut rooms.b, true, xc);
    inputs.fill(&mut rooms.c, true, mq);
    let table = front(&mut rooms.a, table.len);
    let xc = front(&mut rooms.b, xc.len);
    let mq = front(&mut rooms.c, mq.len);
    match read_job(bytes_at(inputs, bytes.at, len), table, xc, mq) {
        Ok(job) => put_job(got, job),
        Err(fault) => put_fault(got, fault),
    }
    got.floats(table);
    got.floats(xc);
    got.floats(mq);
    Ok(())
}

pub(crate) fn replay_read_answer(
    inputs: &Inputs<'_>,
    rooms: &mut Rooms,
    got: &mut Got,
) -> Result<(), Unreplayed> {
    let n = inputs.size(0);
    let len = inputs.size(1);
    let bytes = Span {
        at: 3,
        len: words_of(len),
    };
    let point = bytes.then(inputs.size(2));
    fit(point.end() == inputs.count)?;
    inputs.fill(&mut rooms.a, true, point);
    let point = front(&mut rooms.a, point.len);
    match read_answer(n, bytes_at(inputs, bytes.at, len), point) {
        Ok(answer) => got.words(&[0, 0, answer.found as u64, answer.steps as u64]),
        Err(fault) => put_fault(got, fault),
    }
    got.floats(point);
    Ok(())
}

// The record stands in the answer from its third word on.
pub(crate) fn replay_write_answer(inputs: &Inputs<'_>, got: &mut Got) -> Result<(), Unreplayed> {
    let found = inputs.word(1);
    let steps = half_of(inputs.word(2))?;
    let len = inputs.size(4);
    let point = Span {
        at: 5,
        len: inputs.size(3),
    };
    let out = point.then(words_of(len));
    fit((out.end() == inputs.count) & (found < 2))?;
    put_output(got, 16, inputs, out.at, len);
    let answer = Answer {
        found: found == 1,
        steps,
    };
    let room = part_mut(&mut got.bytes, 16, len);
    let written = write_answer(inputs.size(0), answer, inputs.part(point), room);
    put_written(got, written)?;
    got.len = plus(got.len, out.len);
    Ok(())
}
