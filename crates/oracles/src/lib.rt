// The second layer: oracles and ellipsoids. Names and order of operations are those of the Rust in docs/src.
#![tactic(auto)]

pub mod assess;
pub mod band_cut;
mod copy;
pub mod ell;
pub mod ell_common;
mod ell_factors;
pub mod ell_stable;
pub mod ldlt_mgr;
pub mod lmi_oracle;
pub mod lowpass_oracle;
mod matrix;
pub mod round_robin;
pub mod scan;
pub mod scan_band;
pub mod table;
