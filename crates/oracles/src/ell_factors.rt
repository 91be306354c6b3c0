// The steps of `EllStable` on its factors: the inverse of the matrix is L D Lᵀ; the diagonal holds D's inverse, L[i, j] stands above it at (j, i), scratch below it.
// A matrix that is written stays a slice here, with its length as a fact: see `Matrix`.
ghost use Rattle.std.specs.Prelude.{◌≡◌, ◌++◌, ◌+◌, ◌*◌, ◌-◌, ◌≤◌, ◌<◌, length, drop};
ghost use Rattle.numbers.specs.Arr.{tab};
ghost use Rattle.numbers.specs.F64.{◌⊕◌, ◌⊖◌, ◌⊗◌, 0ᶠ};
ghost use Rattle.oracles.specs.Matrix.{nth, at, total};
ghost use Rattle.oracles.specs.EllStable.{inv_ml_g_of, lowered, backward};
ghost use Rattle.oracles.specs.laws.Matrix.{product_at};
ghost use Rattle.oracles.specs.laws.EllStable.{solved_back, column_taken, row_updated, less_columns, factors_after};

use crate::matrix::Matrix;

// L's row i, which stands above the diagonal in column i, to the front of `column`: two entries to a turn, since one to a turn cost 3 % of an update.
fn column_into(mq: Matrix, i: usize, column: &mut [f64])
    requires { (i < mq.n) × (length column.old ≡ mq.n) }
    ensures { column.new ≡ tab (λ j. at mq.entry.n mq.entry.entries.now j i) i ++ drop i column.old }
{
    for k in 0..i / 2 {
        let j = 2 * k;
        column[j] = mq.at(j, i);
        column[j + 1] = mq.at(j + 1, i);
    }
    if i % 2 == 1 {
        column[i - 1] = mq.at(i - 1, i);
    }
}

// A row of the lower triangle, lent to be written: the products of L's row and w, which are taken from `start` in turn.
fn forward_row(row: &mut [f64], column: &[f64], w: &[f64], start: f64) -> f64
    requires { (length row.old ≤ length column.now) × (length row.old ≤ length w.now) }
    ensures { (result ≡ total ◌⊖◌ start (product_at column.now w.now) (length row.old))
        × (row.new ≡ tab (product_at column.now w.now) (length row.old)) }
{
    let mut s = start;
    for j in 0..row.len() {
        let val = column[j] * w[j];
        row[j] = val;
        s = s - val;
    }
    s
}

// inv(L) g in place of g. `column` is scratch: a row and its column cannot be lent at once.
pub(crate) fn forward(n: usize, mq: &mut [f64], w: &mut [f64], column: &mut [f64])
    requires { (n ≤ 32) × (length mq.old ≡ n * n) × (length w.old ≡ n) × (length column.old ≡ n) }
    ensures { (mq.new ≡ lowered n mq.old w.old)
        × (w.new ≡ tab (inv_ml_g_of n mq.old w.old) n) }
{
    for i in 1..n {
        column_into(Matrix { n, entries: mq }, i, column);
        let at = i * n;
        let end = at + i;
        let start = w[i];
        let s = forward_row(&mut mq[at..end], column, w, start);
        w[i] = s;
    }
}

// Each entry of w times the diagonal's.
pub(crate) fn scale_into(mq: Matrix, w: &[f64], z: &mut [f64])
    requires { (length w.now ≡ mq.n) × (length z.old ≡ mq.n) }
    ensures { z.new ≡ tab (λ i. nth w.now i ⊗ at mq.entry.n mq.entry.entries.now i i) mq.entry.n }
{
    for i in 0..mq.n {
        z[i] = w[i] * mq.at(i, i);
    }
}

// The products of z and w, and their sum.
pub(crate) fn omega_into(w: &[f64], z: &[f64], gg: &mut [f64]) -> f64
    requires { (length w.now ≡ length gg.old) × (length z.now ≡ length gg.old) }
    ensures { (result ≡ total ◌⊕◌ 0ᶠ (product_at z.now w.now) (length gg.old))
        × (gg.new ≡ tab (product_at z.now w.now) (length gg.old)) }
{
    let mut omega = 0.0;
    for i in 0..w.len() {
        let val = z[i] * w[i];
        gg[i] = val;
        omega = omega + val;
    }
    omega
}

// Row i of inv(Lᵀ) z, from the rows after it.
fn backward_row(mq: Matrix, q: &mut [f64], i: usize)
    requires { (length q.old ≡ mq.n) × (i < mq.n) }
    ensures { q.new ≡ solved_back mq.entry.n mq.entry.entries.now q.old i (mq.entry.n - (i + 1)) }
{
    let mut s = q[i];
    for j in i + 1..mq.n {
        s = s - mq.at(i, j) * q[j];
    }
    q[i] = s;
}

// inv(Lᵀ) z in place of z.
pub(crate) fn backward(mq: Matrix, q: &mut [f64])
    requires { (1 ≤ mq.n) × (length q.old ≡ mq.n) }
    ensures { q.new ≡ backward mq.entry.n mq.entry.entries.now q.old mq.entry.n }
{
    for i in (0..mq.n - 1).rev() {
        backward_row(mq, q, i);
    }
}

// Column j of the lower triangle taken from v.
fn take_column(mq: Matrix, v: &mut [f64], j: usize)
    requires { (length v.old ≡ mq.n) × (j < mq.n) }
    ensures { v.new ≡ column_taken mq.entry.n mq.entry.entries.now v.old j }
{
    for l in j + 1..mq.n {
        v[l] = v[l] - mq.at(l, j);
    }
}

// A row of the matrix, lent from its diagonal on: the diagonal's entry times `ratio`, and beta2 × v added to L's.
fn update_row(row: &mut [f64], ratio: f64, beta2: f64, v: &[f64])
    requires { (0 < length row.old) × (length row.old ≡ length v.now) }
    ensures { row.new ≡ row_updated row.old ratio beta2 v.now }
{
    row[0] = row[0] * ratio;
    for l in 1..row.len() {
        row[l] = row[l] + beta2 * v[l];
    }
}

// The rank-one update of the factors; v begins as the gradient.
pub(crate) fn rank_one(n: usize, mq: &mut [f64], z: &[f64], v: &mut [f64], t0: f64)
    requires { (n ≤ 32) × (length mq.old ≡ n * n) × (length z.now ≡ n) × (length v.old ≡ n) }
    ensures { (mq.new ≡ factors_after n mq.old z.now v.old t0)
        × (v.new ≡ tab (λ l. less_columns n mq.old v.old l l) n) }
{
    let mut oldt = t0;
    for j in 0..n {
        let temp = z[j];
        let newt = oldt + v[j] * temp;
        take_column(Matrix { n, entries: mq }, v, j);
        let at = j * n + j;
        let end = j * n + n;
        update_row(&mut mq[at..end], oldt / newt, temp / newt, &v[j..n]);
        oldt = newt;
    }
}
