// Response-time tests for fixed-priority tasks.
#![tactic(auto)]

pub mod laws;
mod load;
pub mod one_job;
pub mod test;
pub mod window;
pub mod worked;
