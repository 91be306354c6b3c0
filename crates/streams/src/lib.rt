// What the programs `filterrun` and `jobfile` read and write: an input is read to its end, and texts are handed over.
#![tactic(auto)]

mod failure;
pub mod input;
pub mod mark;
pub mod output;
pub mod sink;
