// Tests of the counter box and of layers upon layers.
#![tactic(auto)]

pub mod still;
#[cfg(test)]
mod tests;
