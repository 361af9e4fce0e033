// What a docket holds: objectives, and a table of priced rows.
#![tactic(auto)]

pub mod objectives;
mod sums;
pub mod table;
