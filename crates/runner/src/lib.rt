// What a program of this repository does with a job: reads it from standard input, runs it, and hands each line to standard output as it comes.
#![tactic(auto)]

pub mod buffers;
pub mod handing;
mod run;

pub use run::{run_input, run_stdin};
