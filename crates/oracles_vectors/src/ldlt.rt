// Operations 50 to 52 and 115 to 117: factor, witness and quadratic form.
use lists::inputs::{Inputs, Span, fit};
use lists::pushes::Got;
use lists::rooms::{Room, Rooms, front, times};
use lists::tally::Unreplayed;
use numbers::refusal::Refusal;
use oracles::ldlt_mgr::{Pos, factor, sym_quad, witness};

// Two slices, one after the other.
#[derive(Clone, Copy)]
struct Places {
    first: Span,
    second: Span,
}

fn slices_from(at: usize, first: usize, second: usize) -> Places {
    let first = Span { at, len: first };
    Places {
        first,
        second: first.then(second),
    }
}

// By the list's own numbers, here and below: an enum of them would be made by the same match.
fn places_of(inputs: &Inputs<'_>) -> Places {
    let m = inputs.size(0);
    let size = times(m, m);
    match inputs.op {
        50 => slices_from(1, size, size),
        51 => slices_from(3, size, m),
        52 => slices_from(3, m, size),
        115 => slices_from(3, inputs.size(1), inputs.size(2)),
        _ => slices_from(5, inputs.size(3), inputs.size(4)),
    }
}

// Where a matrix is not definite, 1 and the position at which the factorization stopped.
fn put_factored(got: &mut Got, answer: Result<Option<Pos>, Refusal>) {
    match answer {
        Ok(None) => got.words(&[0; 3]),
        Ok(Some(pos)) => got.words(&[1, pos.start as u64, pos.end as u64]),
        Err(_) => {}
    }
}

// The slice that the call writes is `kept`.
fn replay_factor(
    inputs: &Inputs<'_>,
    mat: Span,
    kept: Span,
    room: &mut Room,
    got: &mut Got,
) -> Result<(), Unreplayed> {
    inputs.fill(room, true, kept);
    let kept = front(room, kept.len);
    let answer = factor(inputs.size(0), inputs.part(mat), kept);
    got.refusal(inputs.is_any(), &answer)?;
    put_factored(got, answer);
    got.floats(kept);
    Ok(())
}

// A value is 0 where a call is refused.
fn replay_value(
    inputs: &Inputs<'_>,
    p: Places,
    room: &mut Room,
    got: &mut Got,
) -> Result<(), Unreplayed> {
    let m = inputs.size(0);
    let pos = Pos {
        start: inputs.size(1),
        end: inputs.size(2),
    };
    let first = inputs.part(p.first);
    if (inputs.op == 52) | (inputs.op == 117) {
        let answer = sym_quad(m, pos, first, inputs.part(p.second));
        got.refusal(inputs.is_any(), &answer)?;
        got.float(answer.unwrap_or(0.0));
        return Ok(());
    }
    inputs.fill(room, true, p.second);
    let wit = front(room, p.second.len);
    let answer = witness(m, pos, first, wit);
    got.refusal(inputs.is_any(), &answer)?;
    got.float(answer.unwrap_or(0.0));
    got.floats(wit);
    Ok(())
}

// The list has the storage of operation 50 before the matrix.
pub(crate) fn replay_ldlt(
    inputs: &Inputs<'_>,
    rooms: &mut Rooms,
    got: &mut Got,
) -> Result<(), Unreplayed> {
    let p = places_of(inputs);
    fit(p.second.end() == inputs.count)?;
    match inputs.op {
        50 => replay_factor(inputs, p.second, p.first, &mut rooms.a, got),
        115 => replay_factor(inputs, p.first, p.second, &mut rooms.a, got),
        _ => replay_value(inputs, p, &mut rooms.a, got),
    }
}
