// The single fields of a gate line, and the layout of a quad line.
#![tactic(auto)]

pub mod fields;
pub mod quads;
