// The words of a cut's bounds.
use lists::pushes::Got;
use numbers::cut::CutChoice;

pub(crate) fn put_beta0(got: &mut Got, beta: CutChoice) {
    match beta {
        CutChoice::Single(beta0) | CutChoice::Parallel(beta0, _) => got.float(beta0),
    }
}

// Both; all ones stand for an absent beta1.
pub(crate) fn put_betas(got: &mut Got, beta: CutChoice) {
    put_beta0(got, beta);
    match beta {
        CutChoice::Single(_) => got.word(u64::MAX),
        CutChoice::Parallel(_, beta1) => got.float(beta1),
    }
}
