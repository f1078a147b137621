// The commands of a plan, what each does, and the law over every run of them.
#![tactic(auto)]

pub mod command;
pub mod law;
