#![tactic(auto)]
// The words of the command line: what a user may write, and what is asked for by it.
pub mod asking;
pub mod code;
pub mod command;
pub mod field_name;
pub mod help;
pub mod inquiry;
pub mod menu;
pub mod named;
pub mod option_problem;
pub mod options;
pub mod request;
pub mod rows_name;
pub mod scan;
pub mod setting;
pub mod word_problem;
