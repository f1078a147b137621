// A third cost, a comparison that is no cost, and tests of the costs.
#![tactic(auto)]

pub mod largest;
pub mod late;
#[cfg(test)]
mod tests;
