// A matrix times a vector, for `dot_mv_into`: each row's sum begins at plus zero.
ghost use Rattle.std.specs.Prelude.{◌≡◌, ◌+◌, ◌*◌, ◌≤◌, ◌<◌, length};
ghost use Rattle.numbers.specs.F64.{0ᶠ};
ghost use Rattle.numbers.specs.Arr.{dot_from, row_of, mv_of};
ghost use Rattle.numbers.specs.laws.Arr.{four_row_dots, FilledTo};

use crate::arr::{Four, add_four, add_products};

// A matrix of order n and a vector, lent to be multiplied. What is written stays a slice of its own, whose length each function asks for:
// one that has a `&mut` in it would have each function promise that this is still the one that was lent.
#[derive(Clone, Copy)]
pub(crate) struct Product<'a> {
    pub(crate) n: usize,
    pub(crate) mat: &'a [f64],
    pub(crate) x: &'a [f64],
    ghost large: { 2 ≤ n },
    ghost small: { n ≤ 32 },
    ghost square: { length mat.now ≡ n * n },
    ghost long: { length x.now ≡ n },
}

impl<'a> Product<'a> {
    // Row i, lent as the part of the matrix that begins at i × n.
    fn row(self, i: usize) -> &'a [f64]
        requires { i < self.n }
        ensures value { result.now ≡ row_of self.entry.n self.entry.mat.now i }
        ensures long { length result.now ≡ self.entry.n }
    {
        let at = i * self.n;
        let end = at + self.n;
        &self.mat[at..end]
    }

    // Row i of 2 or 3 times x.
    fn short_row(self, i: usize) -> f64
        requires { (i < self.n) × (self.n ≤ 3) }
        ensures { result ≡ dot_from 0ᶠ (row_of self.entry.n self.entry.mat.now i) self.entry.x.now }
    {
        let row = self.row(i);
        let x = self.x;
        let s = 0.0 + row[0] * x[0];
        let t = s + row[1] * x[1];
        if self.n == 2 {
            return t;
        }
        t + row[2] * x[2]
    }

    // Each row of 2 or 3 times x, with no loop to set up.
    fn short_rows_into(self, out: &mut [f64])
        requires { (self.n ≤ 3) × (length out.old ≡ self.n) }
        ensures { out.new ≡ mv_of self.entry.n self.entry.mat.now self.entry.x.now }
    {
        out[0] = self.short_row(0);
        out[1] = self.short_row(1);
        if self.n == 3 {
            out[2] = self.short_row(2);
        }
    }

    // Row i times x.
    fn one_row(self, i: usize) -> f64
        requires { i < self.n }
        ensures { result ≡ dot_from 0ᶠ (row_of self.entry.n self.entry.mat.now i) self.entry.x.now }
    {
        add_products(0.0, self.row(i), self.x, 0)
    }

    // The four rows from row i on, times x.
    fn four_rows(self, i: usize) -> Four
        requires { i + 3 < self.n }
        ensures { result ≡ four_row_dots self.entry.n self.entry.mat.now self.entry.x.now i }
    {
        let zeros = Four {
            a: 0.0,
            b: 0.0,
            c: 0.0,
            d: 0.0,
        };
        add_four(
            zeros,
            self.row(i),
            self.row(i + 1),
            self.row(i + 2),
            self.row(i + 3),
            self.x,
            0,
        )
    }

    // The first rows times x, four at a time: 4 × fours of them.
    fn rows_by_four(self, fours: usize, out: &mut [f64])
        requires { (4 * fours ≤ self.n) × (length out.old ≡ self.n) }
        ensures { FilledTo (λ k. dot_from 0ᶠ (row_of self.entry.n self.entry.mat.now k) self.entry.x.now) out.old out.new (4 * fours) }
    {
        for k in 0..fours {
            let i = 4 * k;
            let four = self.four_rows(i);
            out[i] = four.a;
            out[i + 1] = four.b;
            out[i + 2] = four.c;
            out[i + 3] = four.d;
        }
    }

    // Each row times x: four rows at a time, and the last ones singly.
    fn long_rows_into(self, out: &mut [f64])
        requires { length out.old ≡ self.n }
        ensures { out.new ≡ mv_of self.entry.n self.entry.mat.now self.entry.x.now }
    {
        let fours = self.n / 4;
        self.rows_by_four(fours, out);
        for i in 4 * fours..self.n {
            out[i] = self.one_row(i);
        }
    }

    // Each row times x.
    pub(crate) fn rows_into(self, out: &mut [f64])
        requires { length out.old ≡ self.n }
        ensures { out.new ≡ mv_of self.entry.n self.entry.mat.now self.entry.x.now }
    {
        if self.n >= 4 {
            self.long_rows_into(out);
        } else {
            self.short_rows_into(out);
        }
    }
}
