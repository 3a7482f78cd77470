#![tactic(auto)]
// Files: jobs and pieces read, pieces written.
pub mod file_problem;
pub mod read;
pub mod store;
