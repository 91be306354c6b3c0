// Operations 53 and 118: the LMI oracle.
use crate::answers::put_beta0;
use lists::inputs::{Inputs, Span, fit};
use lists::pushes::Got;
use lists::rooms::{Rooms, front, times};
use lists::tally::Unreplayed;
use numbers::refusal::Refusal;
use oracles::ldlt_mgr::Pos;
use oracles::lmi_oracle::{LmiCut, assess_feas};

// Where the slices stand, and where the case ends.
#[derive(Clone, Copy)]
struct Places {
    mat_b: Span,
    mat_f: Span,
    x: Span,
    storage: Span,
    wit: Span,
    grad: Span,
    end: usize,
}

// The lengths that m and n say; the gradient is not given.
fn places_legal(inputs: &Inputs<'_>) -> Places {
    let m = inputs.size(0);
    let n = inputs.size(1);
    let size = times(m, m);
    let mat_b = Span { at: 2, len: size };
    let mat_f = mat_b.then(times(n, size));
    let x = mat_f.then(n);
    let storage = x.then(size);
    let wit = storage.then(m);
    let grad = wit.then(n);
    Places {
        mat_b,
        mat_f,
        x,
        storage,
        wit,
        grad,
        end: grad.at,
    }
}

// The lengths that the case says, in words 2 to 7.
fn places_any(inputs: &Inputs<'_>) -> Places {
    let mat_b = Span {
        at: 8,
        len: inputs.size(2),
    };
    let mat_f = mat_b.then(inputs.size(3));
    let x = mat_f.then(inputs.size(4));
    let storage = x.then(inputs.size(5));
    let wit = storage.then(inputs.size(6));
    let grad = wit.then(inputs.size(7));
    Places {
        mat_b,
        mat_f,
        x,
        storage,
        wit,
        grad,
        end: grad.end(),
    }
}

fn put_pos(got: &mut Got, pos: Pos) {
    got.word(pos.start as u64);
    got.word(pos.end as u64);
}

// Where the operation has no lengths of its own, a cut's gradient stands before the position; else after the words, whatever they are.
fn put_verdict(got: &mut Got, any: bool, answer: Result<Option<LmiCut>, Refusal>, grad: &[f64]) {
    match answer {
        Ok(None) => got.words(&[0; 3]),
        Ok(Some(cut)) => {
            got.word(1);
            put_beta0(got, cut.beta);
            if !any {
                got.floats(grad);
            }
            put_pos(got, cut.pos);
        }
        Err(_) => {}
    }
    if any {
        got.floats(grad);
    }
}

pub(crate) fn replay_lmi(
    inputs: &Inputs<'_>,
    rooms: &mut Rooms,
    got: &mut Got,
) -> Result<(), Unreplayed> {
    let any = inputs.is_any();
    let p = if any {
        places_any(inputs)
    } else {
        places_legal(inputs)
    };
    fit(p.end == inputs.count)?;
    inputs.fill(&mut rooms.a, true, p.storage);
    inputs.fill(&mut rooms.b, true, p.wit);
    inputs.fill(&mut rooms.c, any, p.grad);
    let storage = front(&mut rooms.a, p.storage.len);
    let wit = front(&mut rooms.b, p.wit.len);
    let grad = front(&mut rooms.c, p.grad.len);
    let answer = assess_feas(
        inputs.size(0),
        inputs.size(1),
        inputs.part(p.mat_b),
        inputs.part(p.mat_f),
        inputs.part(p.x),
        storage,
        wit,
        grad,
    );
    got.refusal(any, &answer)?;
    put_verdict(got, any, answer, grad);
    got.floats(storage);
    got.floats(wit);
    Ok(())
}
