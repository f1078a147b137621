// Tests of tasks and tables, in a crate of their own so that the proved crate is not proved twice.
#![tactic(auto)]

#[cfg(test)]
mod sample;
#[cfg(test)]
mod tests;
