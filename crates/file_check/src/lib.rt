// The check of a model file.
#![tactic(auto)]

pub mod check;
pub mod faults;
