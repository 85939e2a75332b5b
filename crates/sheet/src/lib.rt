// Wiring sheets: from the bytes of a sheet to the table of its wires.
#![tactic(auto)]

pub mod counts;
pub mod read;
mod reader;
