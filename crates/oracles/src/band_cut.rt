// The cut of a row that breaks a limit (`band_cut` of lowpass_oracle.rs): its gradient and its betas.
ghost use Rattle.std.specs.Prelude.{◌≡◌, map, ◌+◌, ◌*◌, ◌≤◌, length};
ghost use Rattle.std.specs.Float.Ieee.{neg};
ghost use Rattle.oracles.specs.Scan.{band_beta, band_gradient};

use crate::copy::copy_into;
use crate::table::Rows;
use numbers::cut::CutChoice;

// The gradient of a row below its lower limit.
fn negate_into(row: &[f64], grad: &mut [f64])
    requires { length grad.old ≡ length row.now }
    ensures { grad.new ≡ map neg row.now }
{
    for i in 0..row.len() {
        grad[i] = -row[i];
    }
}

// The gradient of a row's cut.
pub(crate) fn gradient_into(rows: Rows, row: usize, is_over: bool, grad: &mut [f64])
    requires { (2 ≤ rows.n) × (rows.n ≤ 32) × (row * rows.n + rows.n ≤ length rows.table.now) × (length grad.old ≡ rows.n) }
    ensures { grad.new ≡ band_gradient rows.entry.n rows.entry.table.now row is_over }
{
    let at = row * rows.n;
    let end = at + rows.n;
    if is_over {
        copy_into(&rows.table[at..end], grad);
    } else {
        negate_into(&rows.table[at..end], grad);
    }
}

// The betas of a row's cut (`band_cut`).
pub(crate) fn band_beta(value: f64, is_over: bool, lower: f64, upper: Option<f64>) -> CutChoice
    ensures { result ≡ band_beta value is_over lower upper }
{
    let Some(u) = upper else {
        return CutChoice::Single(lower - value);
    };
    if is_over {
        return CutChoice::Parallel(value - u, value - lower);
    }
    CutChoice::Parallel(lower - value, u - value)
}
