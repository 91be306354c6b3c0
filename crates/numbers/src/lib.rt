// The first layer: numbers and cut calculators. Names and order of operations are those of the Rust in docs/src.
#![tactic(auto)]

pub mod arr;
pub mod bits;
pub mod cut;
pub mod ell_calc;
pub mod ell_calc_core;
mod mv;
pub mod refusal;
pub mod sqrt;
