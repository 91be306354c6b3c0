// Operation 160: all that `filterrun` prints for a job.
use crate::packed::{bytes_at, pad, put_bytes, words_of};
use drivers::run::{Run, open};
use drivers::trace::Text;
use lists::inputs::{Inputs, fit};
use lists::pushes::Got;
use lists::rooms::{Rooms, front, part, plus, times};
use lists::tally::Unreplayed;

// The text at the front of `out`, to byte `at` of the answer, as `put_bytes` has it; none where the call is refused.
fn put_text(got: &mut Got, at: usize, out: &[u8], text: Text) -> usize {
    match text {
        Ok(count) => put_bytes(got, at, part(out, 0, count)),
        Err(_) => at,
    }
}

// The texts of a run's steps from byte 8 on; where they end. A proved loop has to end, so a count bounds it: no run takes more steps.
fn put_run(got: &mut Got, started: Run, rooms: &mut Rooms) -> usize {
    let n = started.n();
    let table = part(&rooms.a, 0, times(started.rows(), n));
    let xc = front(&mut rooms.b, n);
    let mq = front(&mut rooms.c, times(n, n));
    let grad = front(&mut rooms.d, n);
    let grad_t = front(&mut rooms.e, n);
    // A fixed array, here and below: the project has no heap, and no text is longer.
    let mut out = [0u8; 128];
    let mut run = started;
    let mut at = 8;
    for _ in 0..65536 {
        let printed = run.next(table, mq, xc, grad, grad_t, &mut out);
        at = put_text(got, at, &out, printed.text);
        if !printed.more {
            break;
        }
        run = printed.run;
    }
    at
}

// The job's table, point and matrix go to the first three rooms.
pub(crate) fn replay_text(
    inputs: &Inputs<'_>,
    rooms: &mut Rooms,
    got: &mut Got,
) -> Result<(), Unreplayed> {
    let len = inputs.size(0);
    fit(plus(1, words_of(len)) == inputs.count)?;
    let mut out = [0u8; 128];
    let bytes = bytes_at(inputs, 1, len);
    let opened = open(bytes, &mut rooms.a, &mut rooms.b, &mut rooms.c, &mut out);
    let end = match opened {
        Ok(run) => put_run(got, run, rooms),
        Err(text) => put_text(got, 8, &out, text),
    };
    pad(got, end);
    got.word(end.wrapping_sub(8) as u64);
    got.len = words_of(end);
    Ok(())
}
