// The row table: flat, lent by the caller, `rows` rows of n numbers. Its limits, and the values of its rows at a point.
ghost use Rattle.std.specs.Prelude.{◌≡◌, ◌&&◌, ◌+◌, ◌*◌, ◌≤◌, eqb, length};
ghost use Rattle.oracles.specs.Table.{value_of, four_values, is_rows};

use numbers::arr::{Four, dot_four, dot_zip};

// Whether a table can have so many rows.
pub fn is_rows(rows: usize) -> bool
    ensures { result ≡ is_rows rows }
{
    (1 <= rows) & (rows <= 1024)
}

// Whether the table has `rows` rows of n, and the point n numbers. By division where rows × n may be beyond the machine's numbers.
pub fn table_fits(n: usize, rows: usize, table: usize, x: usize) -> bool
    ensures { result ≡ (eqb table (rows * n) && eqb x n) }
{
    if (n <= 65536) & (rows <= 65536) {
        return (table == rows * n) & (x == n);
    }
    if n == 0 {
        return (table == 0) & (x == 0);
    }
    (table / n == rows) & (table % n == 0) & (x == n)
}

// The rows of a table, n numbers each, and the point at which their values are asked for; lent by the caller.
#[derive(Clone, Copy)]
pub(crate) struct Rows<'a> {
    pub(crate) n: usize,
    pub(crate) table: &'a [f64],
    pub(crate) x: &'a [f64],
}

impl Rows<'_> {
    // Row i's value: the row is the part of the table that begins at i × n.
    pub(crate) fn row_value(self, i: usize) -> f64
        requires { i * self.n + self.n ≤ length self.table.now }
        ensures { result ≡ value_of self.entry.n self.entry.table.now self.entry.x.now i }
    {
        let at = i * self.n;
        let end = at + self.n;
        dot_zip(&self.table[at..end], self.x)
    }

    // The values of the four rows from row i on, each handed on as its part of the table.
    pub(crate) fn four_values(self, i: usize) -> Four
        requires { i * self.n + 4 * self.n ≤ length self.table.now }
        ensures { result ≡ four_values self.entry.n self.entry.table.now self.entry.x.now i }
    {
        let n = self.n;
        let table = self.table;
        let a = i * n;
        let b = a + n;
        let c = b + n;
        let d = c + n;
        let end = d + n;
        dot_four(
            &table[a..b],
            &table[b..c],
            &table[c..d],
            &table[d..end],
            self.x,
        )
    }
}
