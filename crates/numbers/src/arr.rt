// Vectors and matrices over flat slices, row after row (arr.rs). Each public call tests n, then the lengths, and writes nothing where it refuses.
ghost use Rattle.std.specs.Prelude.{◌≡◌, ◌+◌, ◌*◌, ◌≤◌, ◌<◌, min, length, drop, replicate, OnOk, IsTrue};
ghost use Rattle.numbers.specs.Arr.{is_dimension, dot_from, dot_of, four_of, diag_of, dot_answer, dot_mv_into_answer, copy_from_answer, eye_answer, from_diag_answer};
ghost use Rattle.numbers.specs.Refusal.{asked};
ghost use Rattle.numbers.specs.declared.refusal.Refusal.TheVariants.{Dimension, Length};
ghost use Rattle.numbers.specs.laws.Arr.{four_from};

use crate::mv::Product;
use crate::refusal::{Refusal, ask};

// A number for each of four rows.
#[derive(Clone, Copy)]
pub struct Four {
    pub a: f64,
    pub b: f64,
    pub c: f64,
    pub d: f64,
}

// Whether n is a point's dimension.
pub fn is_dimension(n: usize) -> bool
    ensures { result ≡ is_dimension n }
{
    2 <= n && n <= 32
}

// Refusal 1, unless n is a point's dimension.
pub fn dimension(n: usize) -> Result<(), Refusal>
    ensures value { result ≡ asked (is_dimension n) Dimension }
    ensures range { OnOk result ((2 ≤ n) × (n ≤ 32)) }
{
    ask(is_dimension(n), Refusal::Dimension)
}

// Refusal 2, unless the lengths are right.
pub fn lengths(fit: bool) -> Result<(), Refusal>
    ensures value { result ≡ asked fit Length }
    ensures right { OnOk result (IsTrue fit) }
{
    ask(fit, Refusal::Length)
}

// `start`, and the products from `from` on of what the two slices have in common, added left to right, two to a turn. A fold over the pairs, or one to a turn,
// takes 10 to 30 % longer for up to eight numbers. `from` is 1 after a first product and else 0, so that no slice is cut.
pub(crate) fn add_products(start: f64, a: &[f64], b: &[f64], from: usize) -> f64
    requires { (from ≤ length a.now) × (from ≤ length b.now) }
    ensures { result ≡ dot_from start (drop from a.now) (drop from b.now) }
{
    let common = a.len().min(b.len());
    let twos = (common - from) / 2;
    let mut s = start;
    for k in 0..twos {
        let i = from + 2 * k;
        s = s + a[i] * b[i];
        s = s + a[i + 1] * b[i + 1];
    }
    let last = from + 2 * twos;
    if last < common {
        s = s + a[last] * b[last];
    }
    s
}

// The dot product of what the two slices have in common, from the first product on: `dot` with nothing to refuse.
pub fn dot_zip(a: &[f64], b: &[f64]) -> f64
    ensures { result ≡ dot_of a.now b.now }
{
    if a.len().min(b.len()) == 0 {
        return -0.0;
    }
    add_products(a[0] * b[0], a, b, 1)
}

// The calls share their tests, `dimension` and `lengths`; what follows these is of each call alone.
pub fn dot(n: usize, a: &[f64], b: &[f64]) -> Result<f64, Refusal>
    ensures { result ≡ dot_answer n a.now b.now }
{
    dimension(n)?;
    lengths((a.len() == n) & (b.len() == n))?;
    Ok(dot_zip(a, b))
}

// The products of four rows and x from `from` on: side by side, so that an addition does not wait for another row's, and each added to its row's start left
// to right. `from` serves five slices, which would be cut five times.
pub(crate) fn add_four(
    start: Four,
    a: &[f64],
    b: &[f64],
    c: &[f64],
    d: &[f64],
    x: &[f64],
    from: usize,
) -> Four
    requires { (length a.now ≡ length x.now) × (length b.now ≡ length x.now) × (length c.now ≡ length x.now) × (length d.now ≡ length x.now) }
    ensures { result ≡ four_from start a.now b.now c.now d.now x.now from }
{
    let mut s = start.a;
    let mut t = start.b;
    let mut u = start.c;
    let mut v = start.d;
    for j in from..x.len() {
        let y = x[j];
        s = s + a[j] * y;
        t = t + b[j] * y;
        u = u + c[j] * y;
        v = v + d[j] * y;
    }
    Four {
        a: s,
        b: t,
        c: u,
        d: v,
    }
}

// `dot_zip` of each of four rows with x.
pub fn dot_four(a: &[f64], b: &[f64], c: &[f64], d: &[f64], x: &[f64]) -> Four
    ensures { result ≡ four_of a.now b.now c.now d.now x.now }
{
    let n = x.len();
    if (0 < n) & (a.len() == n) & (b.len() == n) & (c.len() == n) & (d.len() == n) {
        let y = x[0];
        let first = Four {
            a: a[0] * y,
            b: b[0] * y,
            c: c[0] * y,
            d: d[0] * y,
        };
        return add_four(first, a, b, c, d, x, 1);
    }
    Four {
        a: dot_zip(a, x),
        b: dot_zip(b, x),
        c: dot_zip(c, x),
        d: dot_zip(d, x),
    }
}

pub fn dot_mv_into(n: usize, mat: &[f64], x: &[f64], out: &mut [f64]) -> Result<(), Refusal>
    ensures { (result, out.new) ≡ dot_mv_into_answer n mat.now x.now out.old }
{
    dimension(n)?;
    lengths((mat.len() == n * n) & (x.len() == n) & (out.len() == n))?;
    Product { n, mat, x }.rows_into(out);
    Ok(())
}

pub fn copy_from(n: usize, dst: &mut [f64], src: &[f64]) -> Result<(), Refusal>
    ensures { (result, dst.new) ≡ copy_from_answer n dst.old src.now }
{
    dimension(n)?;
    lengths((dst.len() == n) & (src.len() == n))?;
    dst.copy_from_slice(src);
    Ok(())
}

// v on the diagonal, and zeros.
fn diagonal_into(n: usize, v: &[f64], out: &mut [f64])
    requires { (n ≤ 32) × (length v.now ≡ n) × (length out.old ≡ n * n) }
    ensures { out.new ≡ diag_of n v.now }
{
    out.fill(0.0);
    for i in 0..n {
        let at = i * n + i;
        out[at] = v[i];
    }
}

pub fn eye(n: usize, out: &mut [f64]) -> Result<(), Refusal>
    ensures { (result, out.new) ≡ eye_answer n out.old }
{
    dimension(n)?;
    lengths(out.len() == n * n)?;
    // fixed memory, since there is no heap
    let ones = [1.0f64; 32];
    diagonal_into(n, &ones[..n], out);
    Ok(())
}

pub fn from_diag(n: usize, v: &[f64], out: &mut [f64]) -> Result<(), Refusal>
    ensures { (result, out.new) ≡ from_diag_answer n v.now out.old }
{
    dimension(n)?;
    lengths((v.len() == n) & (out.len() == n * n))?;
    diagonal_into(n, v, out);
    Ok(())
}
