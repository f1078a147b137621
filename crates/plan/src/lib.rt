// A plan: its commands, what it answers, and the law over every run of commands.
#![tactic(auto)]

pub mod answers;
mod held;
mod ids;
mod levels;
pub mod plan;
pub mod run;
pub mod state;
