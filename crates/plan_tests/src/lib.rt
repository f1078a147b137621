// Tests of the plan, in a crate of their own so that the proved crate is not proved twice.
#![tactic(auto)]

#[cfg(test)]
mod refusals;
#[cfg(test)]
mod sample;
#[cfg(test)]
mod script;
