// The refusal of a gate line, and what a line that is not refused says of its regions.
#![tactic(auto)]

pub mod refusal;
pub mod regions;
mod tiling;
mod words;
