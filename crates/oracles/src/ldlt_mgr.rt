// The factorization A = L D Lᵀ of a matrix of order m, and what proves that it is not positive definite (ldlt_mgr.rs).
ghost use Rattle.std.specs.Prelude.{◌≡◌, suc, ◌+◌, ◌-◌, ◌*◌, ◌≤◌, ◌<◌, length, OnOk, IsTrue};
ghost use Rattle.numbers.specs.Refusal.{asked};
ghost use Rattle.numbers.specs.declared.refusal.Refusal.TheVariants.{Dimension, Position};
ghost use Rattle.numbers.specs.F64.{◌⊕◌, ◌⊗◌, 0ᶠ};
ghost use Rattle.oracles.specs.Matrix.{nth, at, total};
ghost use Rattle.oracles.specs.LdltMgr.{is_order, get_elem, reduced, filled, factored, factor_answer, witness_of, witness_answer, quad_term, quad_of, sym_quad_answer};
ghost use Rattle.oracles.specs.laws.Ldlt.{FactoredTo};

use crate::matrix::Matrix;
use numbers::arr::lengths;
use numbers::refusal::{Refusal, ask};

// The rows of a leading block that is not positive definite: start to end − 1.
#[derive(Clone, Copy)]
pub struct Pos {
    pub start: usize,
    pub end: usize,
}

// Whether m is a matrix's order.
pub fn is_order(m: usize) -> bool
    ensures { result ≡ is_order m }
{
    1 <= m && m <= 32
}

// Refusal 1, unless m is a matrix's order.
pub(crate) fn order(m: usize) -> Result<(), Refusal>
    ensures value { result ≡ asked (is_order m) Dimension }
    ensures range { OnOk result ((1 ≤ m) × (m ≤ 32)) }
{
    ask(is_order(m), Refusal::Dimension)
}

// Refusal 5, unless the position is right.
fn position(fit: bool) -> Result<(), Refusal>
    ensures value { result ≡ asked fit Position }
    ensures right { OnOk result (IsTrue fit) }
{
    ask(fit, Refusal::Position)
}

// The matrix of order m with the entries of mat_b − Σ xc[k] mat_f[k], each worked out where it is read; with an empty xc it is mat_b's own.
#[derive(Clone, Copy)]
pub(crate) struct Lmi<'a> {
    pub(crate) m: usize,
    pub(crate) mat_b: &'a [f64],
    pub(crate) mat_f: &'a [f64],
    pub(crate) xc: &'a [f64],
    ghost order: { m ≤ 32 },
    ghost long_b: { length mat_b.now ≡ m * m },
    ghost long_f: { length mat_f.now ≡ length xc.now * (m * m) },
    ghost few: { length xc.now ≤ 32 },
}

// The sum of row i times column c over the columns below c, from the storage.
fn row_sum(storage: Matrix, i: usize, c: usize) -> f64
    requires { (i < storage.n) × (c < storage.n) }
    ensures { result ≡ total ◌⊕◌ 0ᶠ (λ k. at storage.entry.n storage.entry.entries.now i k ⊗ at storage.entry.n storage.entry.entries.now k c) c }
{
    let mut s = 0.0;
    for k in 0..c {
        s = s + storage.at(i, k) * storage.at(k, c);
    }
    s
}

impl Lmi<'_> {
    // Entry (i, j).
    fn get_elem(self, i: usize, j: usize) -> f64
        requires { (i < self.m) × (j < self.m) }
        ensures { result ≡ get_elem self.entry.m self.entry.mat_b.now self.entry.mat_f.now self.entry.xc.now i j }
    {
        let m = self.m;
        let own = Matrix {
            n: m,
            entries: self.mat_b,
        };
        let mut s = own.at(i, j);
        for k in 0..self.xc.len() {
            s = s - self.mat_f[k * (m * m) + (i * m + j)] * self.xc[k];
        }
        s
    }

    // Row i of the factors, and its pivot.
    fn factor_row(self, storage: &mut [f64], i: usize) -> f64
        requires { (i < self.m) × (length storage.old ≡ self.m * self.m)
            × FactoredTo (get_elem self.m self.mat_b.now self.mat_f.now self.xc.now) self.m storage.old i }
        ensures { (result ≡ reduced (get_elem self.entry.m self.entry.mat_b.now self.entry.mat_f.now self.entry.xc.now) i i)
            × (storage.new ≡ filled (get_elem self.entry.m self.entry.mat_b.now self.entry.mat_f.now self.entry.xc.now) self.entry.m storage.old (suc i)) }
    {
        let m = self.m;
        let mut diag = self.get_elem(i, 0);
        for j in 0..i {
            storage[j * m + i] = diag; // keep for later
            let pivot = Matrix {
                n: m,
                entries: storage,
            }
            .at(j, j);
            storage[i * m + j] = diag / pivot; // L[i, j]
            let next = j + 1;
            let factors = Matrix {
                n: m,
                entries: storage,
            };
            diag = self.get_elem(i, next) - row_sum(factors, i, next);
        }
        storage[i * m + i] = diag;
        diag
    }

    // The rows in turn, and where a pivot stopped it.
    pub(crate) fn factor_rows(self, storage: &mut [f64]) -> Option<Pos>
        requires { length storage.old ≡ self.m * self.m }
        ensures { (result, storage.new) ≡ factored (get_elem self.entry.m self.entry.mat_b.now self.entry.mat_f.now self.entry.xc.now) self.entry.m storage.old }
    {
        for i in 0..self.m {
            let diag = self.factor_row(storage, i);
            if diag <= 0.0 {
                return Some(Pos {
                    start: 0,
                    end: i + 1,
                });
            }
        }
        None
    }
}

// Factors `mat` into `storage`: reads the lower triangle and stops at a pivot that is not positive, which it answers; NaN passes.
pub fn factor(m: usize, mat: &[f64], storage: &mut [f64]) -> Result<Option<Pos>, Refusal>
    ensures { (result, storage.new) ≡ factor_answer m mat.now storage.old }
{
    order(m)?;
    lengths((mat.len() == m * m) & (storage.len() == m * m))?;
    let whole = Lmi {
        m,
        mat_b: mat,
        mat_f: &mat[..0],
        xc: &mat[..0],
    };
    Ok(whole.factor_rows(storage))
}

// The sum of column i of L below row i times the entries of the witness there. `end` stands beside the witness, here and below: it bounds the matrix, too.
fn column_sum(storage: Matrix, wit: &[f64], i: usize, end: usize) -> f64
    requires { (i < end) × (end ≤ storage.n) × (length wit.now ≡ storage.n) }
    ensures { result ≡ total ◌⊕◌ 0ᶠ (λ j. at storage.entry.n storage.entry.entries.now (i + 1 + j) i ⊗ nth wit.now (i + 1 + j)) (end - (i + 1)) }
{
    let mut s = 0.0;
    for k in i + 1..end {
        s = s + storage.at(k, i) * wit[k];
    }
    s
}

// The witness's entries start to end − 1, from the last one back.
pub(crate) fn witness_into(pos: Pos, storage: Matrix, wit: &mut [f64])
    requires { (pos.start < pos.end) × (pos.end ≤ storage.n) × (length wit.old ≡ storage.n) }
    ensures { wit.new ≡ witness_of storage.entry.n pos storage.entry.entries.now wit.old }
{
    let start = pos.start;
    let end = pos.end;
    let last = end - 1;
    wit[last] = 1.0;
    for i in (start..last).rev() {
        wit[i] = -column_sum(storage, wit, i, end);
    }
}

// The vector that proves a stopped factorization's matrix not positive definite, and the negated last pivot.
pub fn witness(m: usize, pos: Pos, storage: &[f64], wit: &mut [f64]) -> Result<f64, Refusal>
    ensures { (result, wit.new) ≡ witness_answer m pos storage.now wit.old }
{
    order(m)?;
    lengths((storage.len() == m * m) & (wit.len() == m))?;
    position((pos.start < pos.end) & (pos.end <= m))?;
    let factors = Matrix {
        n: m,
        entries: storage,
    };
    witness_into(pos, factors, wit);
    let last = pos.end - 1;
    Ok(-factors.at(last, last))
}

// The part of the quadratic form that row i gives, from the upper triangle.
fn quad_row(wit: &[f64], mat: Matrix, end: usize, i: usize) -> f64
    requires { (i < end) × (end ≤ mat.n) × (length wit.now ≡ mat.n) }
    ensures { result ≡ quad_term mat.entry.n wit.now mat.entry.entries.now end i }
{
    let mut s = 0.0;
    for j in i + 1..end {
        s = s + mat.at(i, j) * wit[j];
    }
    wit[i] * (mat.at(i, i) * wit[i] + 2.0 * s)
}

// `sym_quad` with nothing left to refuse.
pub(crate) fn quad(pos: Pos, wit: &[f64], mat: Matrix) -> f64
    requires { (pos.start ≤ pos.end) × (pos.end ≤ mat.n) × (length wit.now ≡ mat.n) }
    ensures { result ≡ quad_of mat.entry.n pos wit.now mat.entry.entries.now }
{
    let end = pos.end;
    let mut result = 0.0;
    for i in pos.start..end {
        result = result + quad_row(wit, mat, end, i);
    }
    result
}

// The quadratic form of `mat` at the witness, from the upper triangle.
pub fn sym_quad(m: usize, pos: Pos, wit: &[f64], mat: &[f64]) -> Result<f64, Refusal>
    ensures { result ≡ sym_quad_answer m pos wit.now mat.now }
{
    order(m)?;
    lengths((wit.len() == m) & (mat.len() == m * m))?;
    position((pos.start <= pos.end) & (pos.end <= m))?;
    let mat = Matrix { n: m, entries: mat };
    Ok(quad(pos, wit, mat))
}
