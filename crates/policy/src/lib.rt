// Policies: which of the permitted ports is picked.
#![tactic(auto)]

pub mod free;
pub mod lowest;
mod mask;
pub mod offer;
pub mod picks;
pub mod rule;
pub mod turning;
