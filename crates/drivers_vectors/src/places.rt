// Where the words of a driver's case stand.
use drivers::cutting_plane::Options;
use lists::inputs::{Inputs, Span, fit};
use lists::rooms::times;
use lists::state::State;
use lists::tally::Unreplayed;

// The slices; where the state, gamma if there is one, kappa and tsq, and the options stand, and where the case ends.
#[derive(Clone, Copy)]
pub(crate) struct Places {
    pub(crate) state: State,
    pub(crate) gamma: usize,
    pub(crate) kappa: usize,
    pub(crate) options: usize,
    pub(crate) table: Span,
    pub(crate) xc: Span,
    pub(crate) mq: Span,
    pub(crate) grad: Span,
    pub(crate) grad_t: Span,
    pub(crate) best: Span,
    pub(crate) end: usize,
}

// Whether the operation is of the optimizing driver, which has gamma.
pub(crate) fn is_optim(inputs: &Inputs<'_>) -> bool {
    (inputs.op == 71) | (inputs.op == 141)
}

// Operations 70 and 71: lengths follow from n and the rows, and the scratch and x_best are not given.
fn places_legal(inputs: &Inputs<'_>) -> Places {
    let n = inputs.size(0);
    let table = Span {
        at: 7,
        len: times(inputs.size(1), n),
    };
    let state = table.then(10);
    let gamma = state.then(if is_optim(inputs) { 1 } else { 0 });
    let kappa = gamma.then(2);
    let xc = kappa.then(n);
    let mq = xc.then(times(n, n));
    let options = mq.then(2);
    let scratch = Span { at: 0, len: n };
    Places {
        state: State::legal(state.at),
        gamma: gamma.at,
        kappa: kappa.at,
        options: options.at,
        table,
        xc,
        mq,
        grad: scratch,
        grad_t: scratch,
        best: scratch,
        end: options.end(),
    }
}

// Operations 140 and 141: words 2 to 7 have the lengths, and gamma stands after the options.
fn places_any(inputs: &Inputs<'_>) -> Places {
    let table = Span {
        at: if is_optim(inputs) { 33 } else { 32 },
        len: inputs.size(2),
    };
    let xc = table.then(inputs.size(3));
    let mq = xc.then(inputs.size(4));
    let grad = mq.then(inputs.size(5));
    let grad_t = grad.then(inputs.size(6));
    let best = grad_t.then(inputs.size(7));
    Places {
        state: State::any(8),
        gamma: 32,
        kappa: 28,
        options: 30,
        table,
        xc,
        mq,
        grad,
        grad_t,
        best,
        end: best.end(),
    }
}

pub(crate) fn places_of(inputs: &Inputs<'_>) -> Places {
    if inputs.is_any() {
        return places_any(inputs);
    }
    places_legal(inputs)
}

// A number of 16 bits.
pub(crate) fn half_of(w: u64) -> Result<u16, Unreplayed> {
    u16::try_from(w).map_err(|_| Unreplayed::Unfit)
}

pub(crate) fn options_of(inputs: &Inputs<'_>, p: Places) -> Result<Options, Unreplayed> {
    let max_iters = half_of(inputs.word(p.options))?;
    Ok(Options::new(max_iters, inputs.float(p.options.wrapping_add(1))))
}

// The case has just its words, and the state's are what they should be.
pub(crate) fn check(inputs: &Inputs<'_>, p: Places) -> Result<(), Unreplayed> {
    fit(p.end == inputs.count)?;
    p.state.check(inputs)
}
