// Drafts and dockets over any model.
#![tactic(auto)]

pub mod docket;
pub mod draft;
