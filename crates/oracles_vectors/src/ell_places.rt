// Where the slices of an update's case stand: operations 60, 61, 119 and 120.
use lists::inputs::{Inputs, Span};
use lists::rooms::times;

// The slices; an ellipsoid that is not stable has one vector of scratch, and the others have no words. Then where kappa and tsq, and the betas, stand, and where the case ends.
#[derive(Clone, Copy)]
pub(crate) struct Places {
    pub(crate) xc: Span,
    pub(crate) mq: Span,
    pub(crate) s1: Span,
    pub(crate) s2: Span,
    pub(crate) s3: Span,
    pub(crate) s4: Span,
    pub(crate) grad: Span,
    pub(crate) numbers: usize,
    pub(crate) betas: usize,
    pub(crate) end: usize,
}

// Operations 60 and 61: xc stands at `xc`, kappa and tsq before it, and the scratch is not given.
fn places_legal(inputs: &Inputs<'_>, at: usize, numbers: usize) -> Places {
    let n = inputs.size(1);
    let xc = Span { at, len: n };
    let mq = xc.then(times(n, n));
    let grad = mq.then(n);
    let betas = grad.then(2);
    let scratch = Span { at: 0, len: n };
    Places {
        xc,
        mq,
        s1: scratch,
        s2: scratch,
        s3: scratch,
        s4: scratch,
        grad,
        numbers,
        betas: betas.at,
        end: betas.end(),
    }
}

// Operation 119: the lengths begin in word 4.
fn places_ell(inputs: &Inputs<'_>) -> Places {
    let xc = Span {
        at: 10,
        len: inputs.size(4),
    };
    let mq = xc.then(inputs.size(5));
    let s1 = mq.then(inputs.size(6));
    let none = s1.then(0);
    let grad = s1.then(inputs.size(7));
    Places {
        xc,
        mq,
        s1,
        s2: none,
        s3: none,
        s4: none,
        grad,
        numbers: 2,
        betas: 8,
        end: grad.end(),
    }
}

// Operation 120: the same with four vectors of scratch.
fn places_stable(inputs: &Inputs<'_>) -> Places {
    let xc = Span {
        at: 13,
        len: inputs.size(4),
    };
    let mq = xc.then(inputs.size(5));
    let s1 = mq.then(inputs.size(6));
    let s2 = s1.then(inputs.size(7));
    let s3 = s2.then(inputs.size(8));
    let s4 = s3.then(inputs.size(9));
    let grad = s4.then(inputs.size(10));
    Places {
        xc,
        mq,
        s1,
        s2,
        s3,
        s4,
        grad,
        numbers: 2,
        betas: 11,
        end: grad.end(),
    }
}

// Operation 60 has one word more before kappa and tsq. By the list's own numbers: an enum of them would be made by the same match.
pub(crate) fn places_of(inputs: &Inputs<'_>) -> Places {
    match inputs.op {
        60 => places_legal(inputs, 5, 3),
        61 => places_legal(inputs, 4, 2),
        119 => places_ell(inputs),
        _ => places_stable(inputs),
    }
}
