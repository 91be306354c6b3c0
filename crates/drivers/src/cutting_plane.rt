// What both drivers (cutting_plane.rs) share: their options, their tests, the best point, and whether a run goes on.
// The slices that a run moves go one by one through its functions. Tried as a struct: lent by `&mut`, a field that is read while another is written is not covered by the borrow checker,
// also after a `let` or a pattern (two that are lent `&mut` at once are); by value, each return puts it together again, and `feas_step` grows from 32 lines to 61.
ghost use Rattle.std.specs.Prelude.{◌≡◌, true, length, Ok, Err};
ghost use Rattle.numbers.specs.Refusal.{◌⨾◌, unless};
ghost use Rattle.drivers.specs.CuttingPlane.{default_options, check_of, room_test, kept, proceeds};

use numbers::arr::{dimension, lengths};
use numbers::cut::CutStatus;
use numbers::refusal::{Refusal, ask};
use oracles::lowpass_oracle::LowpassOracle;
use oracles::table::table_fits;

// How many steps a run may take, and the tsq below which it ends.
#[derive(Clone, Copy)]
pub struct Options {
    pub max_iters: u16,
    pub tolerance: f64,
}

impl Options {
    pub const MAX_ITERS: u16 = 2000;

    pub const TOLERANCE: f64 = 1e-20;

    pub fn new(max_iters: u16, tolerance: f64) -> Options
        ensures { result ≡ record { max_iters = max_iters; tolerance = tolerance } }
    {
        Options {
            max_iters,
            tolerance,
        }
    }

    pub fn default() -> Options
        ensures { result ≡ default_options }
    {
        Options::new(Options::MAX_ITERS, Options::TOLERANCE)
    }
}

// The tests of a run: refusals 1 to 4, then 11, where the output has not the room that is needed.
pub(crate) fn check(
    oracle: LowpassOracle,
    n: usize,
    rows: usize,
    table: &[f64],
    mq: &[f64],
    xc: &[f64],
    grad: &[f64],
    grad_t: &[f64],
    room: usize,
    needed: usize,
) -> Result<(), Refusal>
    ensures { result ≡ unless (check_of oracle n rows (length table.now) (length mq.now) (length xc.now) (length grad.now) (length grad_t.now) ⨾ room_test needed room)
        (λ why place. Err why) (Ok tt) }
{
    dimension(n)?;
    lengths(
        table_fits(n, rows, table.len(), xc.len())
            & (mq.len() == n * n)
            & (grad.len() == n)
            & (grad_t.len() == n),
    )?;
    ask(oracle.bands_fit(rows), Refusal::Band)?;
    ask(oracle.cursors_fit(), Refusal::Cursor)?;
    ask(needed <= room, Refusal::Room)
}

// Copies the centre to the front of x_best, if there is room. By the entry: std's `copy_from_slice` is C's `memmove`, a name that the static library would need from outside for it alone.
pub(crate) fn keep(xc: &[f64], x_best: &mut [f64])
    ensures { x_best.new ≡ kept true xc.now x_best.old }
{
    if xc.len() <= x_best.len() {
        for i in 0..xc.len() {
            x_best[i] = xc[i];
        }
    }
}

// Whether the run goes on after an update.
pub(crate) fn proceeds(status: CutStatus, tsq: f64, tolerance: f64) -> bool
    ensures { result ≡ proceeds status tsq tolerance }
{
    status == CutStatus::Success && !(tsq < tolerance)
}
