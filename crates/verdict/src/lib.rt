// The verdict on a docket's targets, and why a call is refused.
#![tactic(auto)]

pub mod faults;
pub mod limits;
pub mod verdict;
