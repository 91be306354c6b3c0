// The LMI assessment: is mat_b − Σ xc[k] mat_f[k] positive definite (lmi_oracle.rs, lmi_oracle_base.rs)?
ghost use Rattle.std.specs.Prelude.{◌≡◌, ◌*◌, ◌≤◌, ◌<◌, ◌&&◌, eqb, length};
ghost use Rattle.oracles.specs.LmiOracle.{lmi_buffers, lmi_gradient, lmi_assess_of, lmi_answer};

use crate::ldlt_mgr::{Lmi, Pos, order, quad, witness_into};
use crate::matrix::Matrix;
use numbers::arr::{dimension, lengths};
use numbers::cut::CutChoice;
use numbers::refusal::Refusal;

// A cut has the place where the factorization stopped, and one beta: the negated last pivot.
#[derive(Clone, Copy)]
pub struct LmiCut {
    pub pos: Pos,
    pub beta: CutChoice,
}

// Each mat_f[k], lent as the part that begins at k × m², gives its quadratic form at the witness.
fn gradient_into(lmi: Lmi, pos: Pos, wit: &[f64], grad: &mut [f64])
    requires { (pos.start ≤ pos.end) × (pos.end ≤ lmi.m) × (length wit.now ≡ lmi.m) × (length grad.old ≡ length lmi.xc.now) }
    ensures { grad.new ≡ lmi_gradient lmi.entry.m (length lmi.entry.xc.now) pos wit.now lmi.entry.mat_f.now }
{
    let size = lmi.m * lmi.m;
    for k in 0..lmi.xc.len() {
        let at = k * size;
        let end = at + size;
        let mat = Matrix {
            n: lmi.m,
            entries: &lmi.mat_f[at..end],
        };
        grad[k] = 1.0 * quad(pos, wit, mat);
    }
}

// `assess_feas_impl`: factor; where that stops, the witness and the gradient.
fn assess(lmi: Lmi, storage: &mut [f64], wit: &mut [f64], grad: &mut [f64]) -> Option<LmiCut>
    requires { (length storage.old ≡ lmi.m * lmi.m) × (length wit.old ≡ lmi.m) × (length grad.old ≡ length lmi.xc.now) }
    ensures { (result, lmi_buffers storage.new wit.new grad.new)
        ≡ lmi_assess_of lmi.entry.m (length lmi.entry.xc.now) lmi.entry.mat_b.now lmi.entry.mat_f.now lmi.entry.xc.now (lmi_buffers storage.old wit.old grad.old) }
{
    let pos = lmi.factor_rows(storage)?;
    let factors = Matrix {
        n: lmi.m,
        entries: storage,
    };
    witness_into(pos, factors, wit);
    gradient_into(lmi, pos, wit, grad);
    let last = pos.end - 1;
    Some(LmiCut {
        pos,
        beta: CutChoice::Single(-factors.at(last, last)),
    })
}

// The cut where mat_b − Σ xc[k] mat_f[k] is not positive definite; `grad` is its gradient.
pub fn assess_feas(
    m: usize,
    n: usize,
    mat_b: &[f64],
    mat_f: &[f64],
    xc: &[f64],
    storage: &mut [f64],
    wit: &mut [f64],
    grad: &mut [f64],
) -> Result<Option<LmiCut>, Refusal>
    ensures { (result, lmi_buffers storage.new wit.new grad.new)
        ≡ lmi_answer m n mat_b.now mat_f.now xc.now (lmi_buffers storage.old wit.old grad.old) }
{
    order(m)?;
    dimension(n)?;
    let size = m * m;
    let matrices = (mat_b.len() == size) & (mat_f.len() == n * size);
    let fit = matrices & (xc.len() == n) & (storage.len() == size);
    lengths(fit & (wit.len() == m) & (grad.len() == n))?;
    let lmi = Lmi {
        m,
        mat_b,
        mat_f,
        xc,
    };
    Ok(assess(lmi, storage, wit, grad))
}
