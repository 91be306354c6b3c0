// Square matrices as flat slices, row by row (arr.rs).
ghost use Rattle.std.specs.Prelude.{◌≡◌, ◌*◌, ◌≤◌, ◌<◌, length};
ghost use Rattle.oracles.specs.Matrix.{at};

// A matrix of order n that is lent to be read. One to be written stays a slice: each function that takes a struct with a `&mut` in it has to promise that this is still the one that was lent.
#[derive(Clone, Copy)]
pub(crate) struct Matrix<'a> {
    pub(crate) n: usize,
    pub(crate) entries: &'a [f64],
    ghost small: { n ≤ 32 },
    ghost square: { length entries.now ≡ n * n },
}

impl Matrix<'_> {
    // Entry (i, j) (`at` of arr.rs).
    pub(crate) fn at(self, i: usize, j: usize) -> f64
        requires { (i < self.n) × (j < self.n) }
        ensures { result ≡ at self.entry.n self.entry.entries.now i j }
    {
        self.entries[i * self.n + j]
    }
}
