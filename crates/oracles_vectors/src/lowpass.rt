// Operations 42, 43, 113 and 114: the lowpass oracle.
use crate::answers::put_betas;
use lists::inputs::{Inputs, Span, fit};
use lists::pushes::Got;
use lists::rooms::{Rooms, front, plus, times};
use lists::state::State;
use lists::tally::Unreplayed;
use numbers::refusal::Refusal;
use oracles::lowpass_oracle::{Cut, Group, LowpassOracle, OptimVerdict};

// Where the slices and the state stand, where gamma stands if there is one, and where the case ends.
#[derive(Clone, Copy)]
struct Places {
    table: Span,
    x: Span,
    grad: Span,
    gamma: usize,
    state: State,
    end: usize,
}

// Operations 42 and 43; `more` is gamma's one word, or 0. The gradient is not given.
fn places_legal(inputs: &Inputs<'_>, more: usize) -> Places {
    let n = inputs.size(0);
    let table = Span {
        at: 7,
        len: times(inputs.size(1), n),
    };
    let state = table.then(10);
    let x = state.then(n);
    let gamma = x.then(more);
    Places {
        table,
        x,
        grad: Span { at: 0, len: n },
        gamma: gamma.at,
        state: State::legal(state.at),
        end: gamma.end(),
    }
}

// Operations 113 and 114: words 2 to 4 have the lengths.
fn places_any(inputs: &Inputs<'_>, more: usize) -> Places {
    let table = Span {
        at: plus(25, more),
        len: inputs.size(2),
    };
    let x = table.then(inputs.size(3));
    let grad = x.then(inputs.size(4));
    Places {
        table,
        x,
        grad,
        gamma: 25,
        state: State::any(5),
        end: grad.end(),
    }
}

fn places_of(inputs: &Inputs<'_>, more: usize) -> Places {
    if inputs.is_any() {
        return places_any(inputs, more);
    }
    places_legal(inputs, more)
}

// All ones for the group that has no row.
fn row_word(group: Group) -> u64 {
    match group {
        Group::Pass(row, _) | Group::Stop(row, _) | Group::Middle(row) => row as u64,
        Group::Sign => u64::MAX,
    }
}

// The group, its row and side, and the betas.
fn put_cut(got: &mut Got, cut: Cut) {
    let group = cut.group;
    got.word(1);
    got.word(group.number() as u64);
    got.word(row_word(group));
    got.word(group.is_over() as u64);
    put_betas(got, cut.beta);
}

// The cursors' bands stand where they are given.
fn put_oracle(got: &mut Got, any: bool, oracle: LowpassOracle) {
    got.state(oracle);
    if any {
        got.bands(oracle);
    }
}

// Operation 42 shows no gradient of a feasible point.
fn put_feas(got: &mut Got, any: bool, answer: Result<Option<Cut>, Refusal>, grad: &[f64]) {
    match answer {
        Ok(None) => got.word(0),
        Ok(Some(cut)) => {
            put_cut(got, cut);
            if !any {
                got.floats(grad);
            }
        }
        Err(_) => {}
    }
    if any {
        got.floats(grad);
    }
}

fn put_optim(got: &mut Got, answer: Result<OptimVerdict, Refusal>) {
    match answer {
        Ok(OptimVerdict::Improved(beta)) => {
            got.word(2);
            put_betas(got, beta);
        }
        Ok(OptimVerdict::Cut(cut)) => put_cut(got, cut),
        Err(_) => {}
    }
}

// Gamma stands before the gradient where it is given, and in operation 43 after it.
fn put_gamma(got: &mut Got, any: bool, gamma: f64, grad: &[f64]) {
    if any {
        got.float(gamma);
        got.floats(grad);
    } else {
        got.floats(grad);
        got.float(gamma);
    }
}

// The four stay apart, here and in `replay_optim`: a struct with them would be put together for this one call and be taken apart in it.
fn replay_feas(
    inputs: &Inputs<'_>,
    p: Places,
    grad: &mut [f64],
    got: &mut Got,
) -> Result<(), Unreplayed> {
    let any = inputs.is_any();
    let n = inputs.size(0);
    let rows = inputs.size(1);
    let table = inputs.part(p.table);
    let x = inputs.part(p.x);
    let done = p.state.oracle(inputs).assess_feas(n, rows, table, x, grad);
    let answer = done.verdict;
    got.refusal(any, &answer)?;
    put_feas(got, any, answer, grad);
    put_oracle(got, any, done.oracle);
    Ok(())
}

// In operation 43 refusal 6 is the word 3 alone.
fn replay_optim(
    inputs: &Inputs<'_>,
    p: Places,
    grad: &mut [f64],
    got: &mut Got,
) -> Result<(), Unreplayed> {
    let any = inputs.is_any();
    let n = inputs.size(0);
    let rows = inputs.size(1);
    let table = inputs.part(p.table);
    let x = inputs.part(p.x);
    let gamma = inputs.float(p.gamma);
    let done = p
        .state
        .oracle(inputs)
        .assess_optim(gamma, n, rows, table, x, grad);
    let answer = done.verdict;
    if let (false, Err(Refusal::NoStopValue)) = (any, answer) {
        got.word(3);
        return Ok(());
    }
    got.refusal(any, &answer)?;
    put_optim(got, answer);
    put_gamma(got, any, done.gamma, grad);
    put_oracle(got, any, done.oracle);
    Ok(())
}

pub(crate) fn replay_lowpass(
    inputs: &Inputs<'_>,
    rooms: &mut Rooms,
    got: &mut Got,
) -> Result<(), Unreplayed> {
    let is_feas = (inputs.op == 42) | (inputs.op == 113);
    let p = places_of(inputs, if is_feas { 0 } else { 1 });
    fit(p.end == inputs.count)?;
    p.state.check(inputs)?;
    inputs.fill(&mut rooms.a, inputs.is_any(), p.grad);
    let grad = front(&mut rooms.a, p.grad.len);
    if is_feas {
        return replay_feas(inputs, p, grad, got);
    }
    replay_optim(inputs, p, grad, got)
}
