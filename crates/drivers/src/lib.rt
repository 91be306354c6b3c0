// The third layer: drivers and records, and the text of a run. Names and order of operations are those of the Rust in docs/src.
#![tactic(auto)]

pub mod answer;
pub mod belongs;
pub mod cutting_plane;
pub mod cutting_plane_feas;
pub mod cutting_plane_optim;
pub mod fields;
pub mod input;
pub mod job;
pub mod record;
pub mod rules;
pub mod run;
pub mod text;
pub mod trace;
pub mod write_job;
