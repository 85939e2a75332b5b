// Boards and the wires that join them: what a wire is, and which wires a plan may hold.
#![tactic(auto)]

pub mod fault;
pub mod ports;
pub mod wire;
