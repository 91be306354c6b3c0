// The three demands of docs/00-demands.md, stated and proved in specs/: this crate has no code.
#![tactic(auto)]
