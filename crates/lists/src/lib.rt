// What the programs that replay lists of the Rust's answers share: reading a case, comparing it, counting and printing, and the slices of a case (docs/LISTS.md).
#![tactic(auto)]

pub mod case;
pub mod inputs;
pub mod pushes;
pub mod replay;
pub mod report;
pub mod rooms;
pub mod signed;
pub mod state;
pub mod tally;
pub mod words;
