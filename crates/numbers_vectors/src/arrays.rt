// Operations 2 to 5 and 100 to 104: vectors and matrices. Those from 100 on have any lengths: the case gives each slice's length and the output slice
// before the call, and the answer begins with the refusal's number, 0 for none.
use lists::inputs::{Inputs, Span, fit};
use lists::pushes::Got;
use lists::rooms::{Room, front};
use lists::tally::Unreplayed;
use numbers::arr::{copy_from, dot, dot_mv_into, eye, from_diag};
use numbers::refusal::Refusal;

// The slices, of which `out` is the one that is written, and where the case ends.
#[derive(Clone, Copy)]
struct Places {
    a: Span,
    b: Span,
    out: Span,
    end: usize,
}

// The slices stand one after the other. The output is last, and is given only where lengths are any.
fn slices_at(any: bool, from: usize, a: usize, b: usize, out: usize) -> Places {
    let a = Span { at: from, len: a };
    let b = a.then(b);
    let out = b.then(out);
    let end = if any { out.end() } else { out.at };
    Places { a, b, out, end }
}

// n², or 0 where no case holds so large a matrix: a call with that n says no before it looks at one.
fn square(n: usize) -> usize {
    if n < 256 { n * n } else { 0 }
}

// By the list's own numbers, here and below: an enum of them would be made by the same match.
fn places_of(inputs: &Inputs<'_>) -> Places {
    let n = inputs.size(0);
    let l1 = inputs.size(1);
    let l2 = inputs.size(2);
    match inputs.op {
        2 => slices_at(false, 1, n, n, 0),
        3 => slices_at(false, 1, square(n), n, n),
        4 => slices_at(false, 1, 0, 0, square(n)),
        5 => slices_at(false, 1, n, 0, square(n)),
        100 => slices_at(true, 3, l1, l2, 0),
        101 => slices_at(true, 4, l1, l2, inputs.size(3)),
        102 => {
            let p = slices_at(true, 3, l1, l2, 0);
            Places { out: p.a, ..p }
        }
        103 => slices_at(true, 2, 0, 0, l1),
        _ => slices_at(true, 3, l1, 0, l2),
    }
}

fn call_dot(inputs: &Inputs<'_>, p: Places, got: &mut Got) -> Result<(), Unreplayed> {
    let answer = dot(inputs.size(0), inputs.part(p.a), inputs.part(p.b));
    got.refusal(inputs.is_any(), &answer)?;
    got.float(answer.unwrap_or(0.0));
    Ok(())
}

fn call_written(inputs: &Inputs<'_>, p: Places, out: &mut [f64]) -> Result<(), Refusal> {
    let n = inputs.size(0);
    let a = inputs.part(p.a);
    let b = inputs.part(p.b);
    match inputs.op {
        3 | 101 => dot_mv_into(n, a, b, out),
        4 | 103 => eye(n, out),
        102 => copy_from(n, out, b),
        _ => from_diag(n, a, out),
    }
}

pub(crate) fn replay_array(
    inputs: &Inputs<'_>,
    room: &mut Room,
    got: &mut Got,
) -> Result<(), Unreplayed> {
    let p = places_of(inputs);
    let any = inputs.is_any();
    fit(p.end == inputs.count)?;
    if (inputs.op == 2) | (inputs.op == 100) {
        return call_dot(inputs, p, got);
    }
    inputs.fill(room, any, p.out);
    let out = front(room, p.out.len);
    let answer = call_written(inputs, p, out);
    got.refusal(any, &answer)?;
    got.floats(front(room, p.out.len));
    Ok(())
}
