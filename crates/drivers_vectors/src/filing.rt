// Operations 155 and 162: the writer of jobs, and what it writes of a job that was read.
use crate::packed::{bytes_at, put_output, put_written, words_of};
use crate::places::half_of;
use crate::records::put_fault;
use drivers::cutting_plane::Options;
use drivers::job::{Job, read_job};
use drivers::write_job::write_job;
use lists::inputs::{Inputs, Span, fit};
use lists::pushes::Got;
use lists::rooms::{Rooms, part, part_mut, plus, times};
use lists::tally::Unreplayed;

// The job of words 0 to 12.
fn job_of(inputs: &Inputs<'_>) -> Result<Job, Unreplayed> {
    inputs.all_signed(2, 4)?;
    inputs.all_signed(7, 10)?;
    let max_iters = half_of(inputs.word(11))?;
    Ok(Job {
        n: inputs.size(0),
        rows: inputs.size(1),
        nwpass: inputs.signed(2),
        nwstop: inputs.signed(3),
        lp_sq: inputs.float(4),
        up_sq: inputs.float(5),
        sp_sq: inputs.float(6),
        cur1: inputs.signed(7),
        cur2: inputs.signed(8),
        cur3: inputs.signed(9),
        kappa: inputs.float(10),
        options: Options::new(max_iters, inputs.float(12)),
    })
}

// The record stands in the answer from its third word on.
pub(crate) fn replay_write_job(inputs: &Inputs<'_>, got: &mut Got) -> Result<(), Unreplayed> {
    let len = inputs.size(16);
    let table = Span {
        at: 17,
        len: inputs.size(13),
    };
    let xc = table.then(inputs.size(14));
    let mq = xc.then(inputs.size(15));
    let out = mq.then(words_of(len));
    fit(out.end() == inputs.count)?;
    let job = job_of(inputs)?;
    put_output(got, 16, inputs, out.at, len);
    let room = part_mut(&mut got.bytes, 16, len);
    let written = write_job(
        job,
        inputs.part(table),
        inputs.part(xc),
        inputs.part(mq),
        room,
    );
    put_written(got, written)?;
    got.len = plus(got.len, out.len);
    Ok(())
}

// Writes the job whose numbers are in the first three rooms, from the answer's fifth word on.
fn put_read(got: &mut Got, rooms: &Rooms, job: Job, len: usize) -> Result<(), Unreplayed> {
    let n = job.n;
    let table = part(&rooms.a, 0, times(job.rows, n));
    let xc = part(&rooms.b, 0, n);
    let mq = part(&rooms.c, 0, times(n, n));
    let room = part_mut(&mut got.bytes, 32, len);
    let written = write_job(job, table, xc, mq, room);
    got.words(&[0, 0]);
    put_written(got, written)
}

// The rooms hold every job.
pub(crate) fn replay_rewrite_job(
    inputs: &Inputs<'_>,
    rooms: &mut Rooms,
    got: &mut Got,
) -> Result<(), Unreplayed> {
    let len = inputs.size(1);
    let bytes = Span {
        at: 2,
        len: words_of(inputs.size(0)),
    };
    let out = bytes.then(words_of(len));
    fit(out.end() == inputs.count)?;
    put_output(got, 32, inputs, out.at, len);
    let record = bytes_at(inputs, bytes.at, inputs.size(0));
    match read_job(record, &mut rooms.a, &mut rooms.b, &mut rooms.c) {
        Ok(job) => put_read(got, rooms, job, len)?,
        Err(fault) => {
            put_fault(got, fault);
            got.words(&[0, 0]);
        }
    }
    got.len = plus(got.len, out.len);
    Ok(())
}
