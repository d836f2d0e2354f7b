// The text that the programs read and print: the input parted, its events listed, lines printed.
#![tactic(auto)]

pub mod listing;
pub mod parting;
pub mod printing;
