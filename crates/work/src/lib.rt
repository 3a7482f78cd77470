#![tactic(auto)]
// What the verbs work out, on values: no file is read or written and nothing is printed here.
pub mod candidates;
pub mod cut;
pub mod cut_problem;
pub mod held;
pub mod hold;
pub mod open;
pub mod question;
pub mod unfit;
