// The lines of a wiring sheet: what each says by itself, and why a sheet may be refused.
#![tactic(auto)]

pub mod entry;
pub mod fault;
