// Tests of the response tests, in a crate of their own so that the proved crate is not proved twice.
#![tactic(auto)]

#[cfg(test)]
mod tests;
