#![tactic(auto)]
// What the program says, in words and numbers.
pub mod cells;
pub mod cut_text;
pub mod grouped;
pub mod read_text;
pub mod unfit_text;
