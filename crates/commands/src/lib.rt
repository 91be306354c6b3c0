// The commands of the program `jobfile`, for people with job files.
#![tactic(auto)]

pub mod answer;
pub mod arguments;
pub mod belongs;
pub mod file;
pub mod jobfile;
mod sound_job;
mod taking;
