// Operations 1, 10 to 16, 20 to 28 and 105: the root and the calculators.
use lists::inputs::{Inputs, fit};
use lists::pushes::Got;
use lists::tally::Unreplayed;
use numbers::cut::{CutAnswer, Params};
use numbers::ell_calc::EllCalc;
use numbers::ell_calc_core::EllCalcCore;
use numbers::sqrt::sqrt;

pub(crate) fn replay_root(inputs: &Inputs<'_>, got: &mut Got) -> Result<(), Unreplayed> {
    fit(inputs.count == 1)?;
    got.float(sqrt(inputs.float(0)));
    Ok(())
}

fn put_params(got: &mut Got, p: Params) {
    got.float(p.rho);
    got.float(p.sigma);
    got.float(p.delta);
}

fn put_core(got: &mut Got, c: EllCalcCore) {
    got.float(c.n_f);
    got.float(c.n_plus_1);
    got.float(c.half_n);
    got.float(c.inv_n);
    got.float(c.cst1);
    got.float(c.cst2);
}

// How many input words an operation of a calculator takes. By the list's own numbers, here and below, so that it reads as the table in docs/LISTS.md: an enum of them would be made by the same match.
fn inputs_of(op: u64) -> usize {
    match op {
        10 => 1,
        11 => 6,
        12 | 14 => 4,
        13 | 15 => 3,
        16 => 2,
        20..=24 => 5,
        25..=27 => 4,
        _ => 3,
    }
}

// The helper takes any n: it has no test of its own.
fn helper(inputs: &Inputs<'_>) -> EllCalcCore {
    EllCalcCore::new(std::num::nearest_u64_to_f64(inputs.word(0)))
}

fn core_params(inputs: &Inputs<'_>) -> Params {
    let c = helper(inputs);
    let x = inputs.float(1);
    let y = inputs.float(2);
    let z = inputs.float(3);
    match inputs.op {
        11 => c.calc_parallel_bias_cut_fast(x, y, z, inputs.float(4), inputs.float(5)),
        12 => c.calc_parallel_bias_cut(x, y, z),
        13 => c.calc_parallel_central_cut(x, y),
        14 => c.calc_bias_cut_fast(x, y, z),
        15 => c.calc_bias_cut(x, y),
        _ => c.calc_central_cut(x),
    }
}

pub(crate) fn replay_core(inputs: &Inputs<'_>, got: &mut Got) -> Result<(), Unreplayed> {
    fit(inputs.count == inputs_of(inputs.op))?;
    if inputs.op == 10 {
        put_core(got, helper(inputs));
    } else {
        put_params(got, core_params(inputs));
    }
    Ok(())
}

fn calc_answer(inputs: &Inputs<'_>, c: EllCalc) -> CutAnswer {
    let x = inputs.float(2);
    let y = inputs.float(3);
    let z = inputs.float(4);
    let beta = inputs.betas(2);
    match inputs.op {
        20 => c.calc_single_or_parallel_bias_cut(beta, z),
        21 => c.calc_single_or_parallel_central_cut(beta, z),
        22 => c.calc_single_or_parallel_q(beta, z),
        23 => c.calc_parallel_bias_cut(x, y, z),
        24 => c.calc_parallel_q(x, y, z),
        25 => c.calc_parallel_central_cut(x, y),
        26 => c.calc_bias_cut(x, y),
        27 => c.calc_bias_cut_q(x, y),
        _ => c.calc_central_cut(x),
    }
}

pub(crate) fn replay_calc(inputs: &Inputs<'_>, got: &mut Got) -> Result<(), Unreplayed> {
    fit(inputs.count == inputs_of(inputs.op))?;
    let parallel = inputs.word(1);
    fit(parallel < 2)?;
    let made = EllCalc::new(inputs.size(0))?;
    let c = EllCalc {
        use_parallel_cut: parallel == 1,
        ..made
    };
    let answer = calc_answer(inputs, c);
    got.word(u8::from(answer.status) as u64);
    put_params(got, answer.params);
    Ok(())
}

// `EllCalc::new` with its refusal: the number, then what it made, or eight words of 0.
pub(crate) fn replay_new(inputs: &Inputs<'_>, got: &mut Got) -> Result<(), Unreplayed> {
    fit(inputs.count == 1)?;
    let new = EllCalc::new(inputs.size(0));
    got.refusal(true, &new)?;
    match new {
        Ok(c) => {
            got.float(c.n_f);
            put_core(got, c.helper);
            got.word(c.use_parallel_cut as u64);
        }
        Err(_) => got.words(&[0; 8]),
    }
    Ok(())
}
