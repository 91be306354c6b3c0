// The calls of the first layer, and the factorization of the second.
ghost use Rattle.std.specs.Prelude.{◌≡◌, T};
ghost use Rattle.numbers.specs.Arr.{dot_answer, dot_mv_into_answer};
ghost use Rattle.numbers.specs.Refusal.{refusal_number};
ghost use Rattle.std.specs.Float.Ieee.Positive.{positive};
ghost use Rattle.numbers.specs.Sqrt.{sqrt_of, NearestRoot};
ghost use Rattle.oracles.specs.LdltMgr.{factor_answer};
ghost use Rattle.ponduvizh.specs.Exported.{number_exported, written_exported, factored_end, factored_exported};

use numbers::arr::{dot, dot_mv_into};
use numbers::refusal::{Refusal, number};
use numbers::sqrt::sqrt;
use oracles::ldlt_mgr::{Pos, factor};

// A refusal's number in C's 64 bits: std's `From`, named once for the four calls that make an ellipsoid first.
pub(crate) fn code(why: Refusal) -> u64
    ensures { result ≡ refusal_number why }
{
    u8::from(why) as u64
}

fn factored_end(answer: Result<Option<Pos>, Refusal>, old: usize) -> usize
    ensures { result ≡ factored_end answer old }
{
    answer.map_or(old, |stopped| stopped.map_or(0, |pos| pos.end))
}

#[unsafe(no_mangle)]
pub extern "C" fn ponduvizh_sqrt(x: f64) -> f64
    ensures value { result ≡ sqrt_of x }
    ensures nearest_root { T (positive x) → NearestRoot x result }
{
    sqrt(x)
}

// The product through `out`.
#[unsafe(no_mangle)]
pub extern "C" fn ponduvizh_dot(n: usize, a: &[f64], b: &[f64], out: &mut f64) -> u64
    ensures { (result, out.new) ≡ number_exported (dot_answer n a.now b.now) out.old }
{
    let answer = dot(n, a, b);
    *out = answer.unwrap_or(*out);
    number(&answer) as u64
}

#[unsafe(no_mangle)]
pub extern "C" fn ponduvizh_dot_mv_into(n: usize, mat: &[f64], x: &[f64], out: &mut [f64]) -> u64
    ensures { (result, out.new) ≡ written_exported (dot_mv_into_answer n mat.now x.now out.old) }
{
    number(&dot_mv_into(n, mat, x, out)) as u64
}

// `end` becomes 0 for a positive definite matrix, else the number of rows of the leading block that is not.
#[unsafe(no_mangle)]
pub extern "C" fn ponduvizh_factor(
    m: usize,
    mat: &[f64],
    storage: &mut [f64],
    end: &mut usize,
) -> u64
    ensures { (result, end.new, storage.new) ≡ factored_exported (factor_answer m mat.now storage.old) end.old }
{
    let answer = factor(m, mat, storage);
    *end = factored_end(answer, *end);
    number(&answer) as u64
}
