// Whether an answer belongs to a job.
ghost use Rattle.std.specs.Prelude.{◌≡◌};
ghost use Rattle.drivers.specs.Belongs.{belongs_answer};
ghost use Rattle.drivers.specs.laws.Belongs.{belonging_of};

use crate::answer::Answer;
use crate::job::Job;
use numbers::arr::{dimension, lengths};
use numbers::refusal::Refusal;
use oracles::lowpass_oracle::Cut;

// What a verdict on the point says, of an answer that has one or has none.
fn belonging_of(verdict: Result<Option<Cut>, Refusal>, found: bool) -> Result<bool, Refusal>
    ensures { result ≡ belonging_of verdict «found» }
{
    let broken = verdict?;
    Ok(broken.is_none() == found)
}

// An answer belongs to a job when its point is feasible for that job, or, having none, when the job's own point x isn't. grad is scratch.
pub fn belongs(
    job: Job,
    table: &[f64],
    x: &[f64],
    answer: Answer,
    point: &[f64],
    grad: &mut [f64],
) -> Result<bool, Refusal>
    ensures { (result, grad.new) ≡ belongs_answer job table.now x.now answer point.now grad.old }
{
    let n = job.n;
    let oracle = job.oracle();
    dimension(n)?;
    lengths((x.len() == n) & (point.len() == n))?;
    if answer.found {
        let assessed = oracle.assess_feas(n, job.rows, table, point, grad);
        return belonging_of(assessed.verdict, true);
    }
    let assessed = oracle.assess_feas(n, job.rows, table, x, grad);
    belonging_of(assessed.verdict, false)
}
